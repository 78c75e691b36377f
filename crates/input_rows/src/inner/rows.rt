// Reading until a row is full.
ghost use Rattle.std.specs.Prelude.{◌≡◌, ◌≤◌, length, IfOk, IfErr};

use std::io::Read;

// A read that failed behind so many bytes.
#[derive(Clone, Copy)]
pub struct Broken {
    pub after: usize,
}

// Reads until a row is full or the input ends, and answers how many bytes came. A read brings as many as it likes, so the loop counts them.
pub fn fill<R: Read>(from: &mut R, row: &mut [u8]) -> Result<usize, Broken>
    ensures came { IfOk result (λ n. n ≤ length row.old) }
    ensures broken { IfErr result (λ e. e.after ≤ length row.old) }
    ensures row { length row.new ≡ length row.old }
{
    let mut done: usize = 0;
    while done < row.len() {
        match from.read(&mut row[done..]) {
            Err(_) => return Err(Broken { after: done }),
            Ok(0) => return Ok(done),
            Ok(more) => done += more,
        }
    }
    Ok(done)
}

// How many bytes came, up to the end of the input or a read that failed.
pub fn count(came: Result<usize, Broken>) -> usize
    ensures came { IfOk came (λ n. result ≡ n) }
    ensures broken { IfErr came (λ e. result ≡ e.after) }
{
    match came {
        Ok(count) | Err(Broken { after: count }) => count,
    }
}
