// From the bytes that were read to a list of radices.
ghost use Rattle.std.specs.Prelude.{◌≡◌, ◌≤◌, ◌<◌, length};
ghost use Rattle.tokens.specs.Tokens.{is_blank, digit_value};
ghost use Rattle.tokens.specs.Reading.{grown, room, pushed, ended_token, stepped, ReadsRadices};

// How much of a token was read: nothing, one byte, or more.
#[derive(Clone, Copy)]
pub enum Token {
    Nothing,
    One(u8),
    More,
}

// The radices of the tokens that have ended, and the token that has not. No heap, so the radices stand in an array.
#[derive(Clone, Copy)]
pub struct Reading {
    pub list: [u8; 2048],
    pub count: usize,
    pub token: Token,
}

// Whether a byte parts tokens.
#[tactic(auto, unfolding(crate::specs::Tokens::is_blank))]
fn is_blank(b: u8) -> bool
    ensures { result ≡ is_blank b }
{
    matches!(b, b' ' | b'\t' | b'\n' | b'\r')
}

// The radix of which a byte is the digit, or 0: what is no radix stands in the list too, and planning refuses it at its place.
#[tactic(auto, using(crate::proofs::Reading::no_digit), unfolding(crate::specs::Tokens::digit_value))]
fn digit_value(b: u8) -> u8
    ensures { result ≡ digit_value b }
{
    match b {
        b'2' => 2,
        b'3' => 3,
        b'4' => 4,
        b'5' => 5,
        b'7' => 7,
        b'8' => 8,
        _ => 0,
    }
}

impl Token {
    // A token with one byte more.
    fn grow(self, b: u8) -> Token
        ensures { result ≡ grown self b }
    {
        match self {
            Token::Nothing => Token::One(b),
            Token::One(_) => Token::More,
            Token::More => Token::More,
        }
    }
}

impl Reading {
    // The token ends as this radix.
    fn push(&mut self, v: u8)
        requires { self.old.count < 2048 }
        ensures { self.new ≡ pushed self.old v }
    {
        self.list[self.count] = v;
        self.count += 1;
        self.token = Token::Nothing;
    }

    // The token ends, if there is one.
    fn end_token(&mut self)
        requires { room self.old ≤ 4096 }
        ensures { self.new ≡ ended_token self.old }
    {
        match self.token {
            Token::Nothing => {}
            Token::One(b) => self.push(digit_value(b)),
            Token::More => self.push(0),
        }
    }

    // One byte more.
    fn step(&mut self, b: u8)
        requires { room self.old ≤ 4096 }
        ensures { self.new ≡ stepped self.old b }
    {
        if is_blank(b) {
            self.end_token();
            return;
        }
        self.token = self.token.grow(b);
    }
}

// The radices of the tokens of a text.
pub fn read_radices(text: &[u8]) -> Reading
    requires { length text.now ≤ 4096 }
    ensures { ReadsRadices text.now result }
{
    let mut reading = Reading {
        list: [0u8; 2048],
        count: 0,
        token: Token::Nothing,
    };
    for &b in text {
        reading.step(b);
    }
    reading.end_token();
    reading
}
