// A line of the input: the step at which a request arrives, its bank, its kind, and its domain, which is 0 if none is given.
ghost use Rattle.std.specs.Prelude.{◌≡◌, Some};
ghost use Rattle.tokens.specs.Lexemes.{at_start, moved};
ghost use Rattle.arrivals.specs.Reading.{text_of, number_read, kind_read, last_read, end_read, early_of, low_of, step_read, bank_read, domain_read, moved_on, reading};
ghost use Rattle.arrivals.specs.declared.reading.Complaint.TheVariants.{NoToken, NoKind};

use interface::{Kind, Request, UnknownKind};
use std::error::Error;
use std::fmt;
use tokens::{Fault, Lexer, Token};

// The last step at which a request may arrive.
const LATEST: u64 = 1_000_000;

// The highest bank, and the highest domain.
const HIGHEST: u64 = 7;

// A request, and the step before which it arrives.
#[derive(Clone, Copy)]
pub struct Arrival {
    pub step: u64,
    pub request: Request,
}

// What is wrong with a line.
#[derive(Clone, Copy, PartialEq, Eq, Debug)]
pub enum Complaint {
    // a byte or a number that may not stand there
    NoToken,
    // a number is wanted
    NoNumber,
    // R or W is wanted
    NoKind,
    // a step above 1,000,000
    TooLate,
    // a bank or a domain above 7
    TooHigh,
    // something follows the domain
    TooLong,
}

impl fmt::Display for Complaint {
    ghost output = { λ complaint. Some (text_of complaint) };

    fn fmt<W: fmt::Write>(&self, f: &mut fmt::Formatter<W>) -> fmt::Result {
        f.write_str(match self {
            Complaint::NoToken => "a byte or a number that may not stand there",
            Complaint::NoNumber => "a number is wanted",
            Complaint::NoKind => "R or W is wanted",
            Complaint::TooLate => "a step above 1,000,000",
            Complaint::TooHigh => "a bank or a domain above 7",
            Complaint::TooLong => "something follows the domain",
        })
    }
}

impl Error for Complaint {}

impl From<Fault> for Complaint {
    ghost from_gives = { λ _ complaint. complaint ≡ NoToken };

    fn from(_fault: Fault) -> Complaint {
        Complaint::NoToken
    }
}

impl From<UnknownKind> for Complaint {
    ghost from_gives = { λ _ complaint. complaint ≡ NoKind };

    fn from(_letter: UnknownKind) -> Complaint {
        Complaint::NoKind
    }
}

// The next token, which is to be a number.
fn read_number(lexer: &mut Lexer) -> Result<u64, Complaint>
    ensures answer { result ≡ number_read lexer.old }
    ensures after { lexer.new ≡ moved lexer.old }
{
    match lexer.next()? {
        Some(Token::Number(_, value)) => Ok(value),
        _ => Err(Complaint::NoNumber),
    }
}

// The next token, which is to be R or W.
#[tactic(auto, unfolding(crate::specs::Reading::kind_read, crate::specs::Reading::moved_on))]
fn read_letter(lexer: &mut Lexer) -> Result<Kind, Complaint>
    ensures answer { result ≡ kind_read lexer.old }
    ensures after { lexer.new ≡ moved_on lexer.old }
{
    let Some(Token::Word(word)) = lexer.next()? else {
        return Err(Complaint::NoKind);
    };
    match word.bytes {
        [letter] => Ok(Kind::try_from(char::from(*letter))?),
        _ => Err(Complaint::NoKind),
    }
}

// The next token, which is to be a number, or 0 at the line's end.
fn read_last(lexer: &mut Lexer) -> Result<u64, Complaint>
    ensures answer { result ≡ last_read lexer.old }
    ensures after { lexer.new ≡ moved lexer.old }
{
    match lexer.next()? {
        None => Ok(0),
        Some(Token::Number(_, value)) => Ok(value),
        Some(_) => Err(Complaint::NoNumber),
    }
}

// The line's end.
fn read_end(lexer: &mut Lexer) -> Result<(), Complaint>
    ensures { result ≡ end_read lexer.old }
{
    match lexer.next()? {
        None => Ok(()),
        Some(_) => Err(Complaint::TooLong),
    }
}

// A test, since a number that is a step has no type of its own.
fn early(step: u64) -> Result<u64, Complaint>
    ensures { result ≡ early_of step }
{
    if step > LATEST {
        return Err(Complaint::TooLate);
    }
    Ok(step)
}

// A test, since a number that is a bank or a domain has no type of its own.
fn low(number: u64) -> Result<u8, Complaint>
    ensures { result ≡ low_of number }
{
    if number > HIGHEST {
        return Err(Complaint::TooHigh);
    }
    Ok(number as u8)
}

#[tactic(auto, unfolding(crate::specs::Reading::step_read, crate::specs::Reading::moved_on))]
fn read_step(lexer: &mut Lexer) -> Result<u64, Complaint>
    ensures answer { result ≡ step_read lexer.old }
    ensures after { lexer.new ≡ moved_on lexer.old }
{
    early(read_number(lexer)?)
}

#[tactic(auto, unfolding(crate::specs::Reading::bank_read, crate::specs::Reading::moved_on))]
fn read_bank(lexer: &mut Lexer) -> Result<u8, Complaint>
    ensures answer { result ≡ bank_read lexer.old }
    ensures after { lexer.new ≡ moved_on lexer.old }
{
    low(read_number(lexer)?)
}

// The last two parts: a domain, or nothing, and then the line's end.
#[tactic(auto, unfolding(crate::specs::Reading::domain_read))]
fn read_domain(lexer: &mut Lexer) -> Result<u8, Complaint>
    ensures { result ≡ domain_read lexer.old }
{
    let domain = low(read_last(lexer)?)?;
    read_end(lexer)?;
    Ok(domain)
}

// The request that a line names, for a slot, or the first thing that is wrong with the line.
pub fn read_arrival(line: &[u8], slot: u16) -> Result<Arrival, Complaint>
    ensures { result ≡ reading slot line.now }
{
    let mut lexer = Lexer::new(line);
    let step = read_step(&mut lexer)?;
    let bank = read_bank(&mut lexer)?;
    let kind = read_letter(&mut lexer)?;
    let domain = read_domain(&mut lexer)?;
    Ok(Arrival {
        step,
        request: Request {
            slot,
            domain,
            bank,
            kind,
        },
    })
}
