// The reader: the next line's form, or its fault.
ghost use Rattle.std.specs.Prelude.{◌≡◌, ◌≤◌, length, take};
ghost use Rattle.std.specs.List.{prefix_len};
ghost use Rattle.forms.specs.Forms.{content};
ghost use Rattle.forms.specs.Lines.{in_line, line_end, line_after, past_end, in_place, IsRead, one_line, line_read, next_read, next_place, begun};
ghost use Rattle.forms.specs.Spelling.{ReadsBack};
ghost use Rattle.forms.specs.declared.reader.ReadError.TheVariants.{Fault as FaultOf, Memory};

use crate::faults::{Fault, LONGEST};
use crate::lines::line_form;
use crate::signs::token_fault;
use crate::values::Form;
use std::alloc::{AllocError, Global};
use std::marker::Model;

// Why a line gives no form.
#[derive(Clone, Copy, PartialEq, Eq, Debug)]
pub enum ReadError {
    Fault(Fault),
    // memory ran out, so that the line is not read
    Memory(AllocError),
}

impl From<Fault> for ReadError {
    ghost from_gives = { λ fault error. error ≡ FaultOf fault };

    fn from(fault: Fault) -> ReadError {
        ReadError::Fault(fault)
    }
}

impl From<AllocError> for ReadError {
    ghost from_gives = { λ memory error. error ≡ Memory memory };

    fn from(memory: AllocError) -> ReadError {
        ReadError::Memory(memory)
    }
}

// A text, and where its next line begins.
#[derive(Drop)]
pub struct Reader<'a> {
    text: &'a [u8],
    at: usize,
}

impl<'a> Model for Reader<'a> {
    ghost use Rattle.forms.specs.Lines.{Place, placed_at};

    ghost Value = { Place };

    ghost view = { λ r. placed_at r.text.now r.at };
}

// How long a line is that a text begins with.
fn line_length(text: &[u8]) -> usize
    ensures length { result ≡ prefix_len in_line text.now }
    ensures within { result ≤ length text.now }
{
    text.iter().take_while(|byte| **byte != b'\n').count()
}

fn after_line(text: &[u8], end: usize) -> usize
    ensures { result ≡ line_after text.now end }
{
    if end < text.len() { end + 1 } else { end }
}

fn front(text: &[u8], end: usize) -> &[u8]
    requires { end ≤ length text.now }
    ensures { result.now ≡ take end text.now }
{
    &text[..end]
}

// A controller form stands in the first line, and there only.
fn stands_right(form: &Form, line: usize) -> bool
    ensures { result ≡ in_place line (content form.now) }
{
    match form {
        Form::Controller(_) => line == 0,
        _ => line != 0,
    }
}

// The form of the line that begins at a place and goes to the end of the text.
fn read_line(heap: Global, text: &[u8], line: usize) -> Result<Form, ReadError>
    ensures { IsRead (one_line result) (line_read text.now line) }
{
    if let Some(fault) = token_fault(text, line) {
        return Err(Fault::from(fault).into());
    }
    match line_form(heap, text, line)? {
        Some(form) if stands_right(&form, line) => Ok(form),
        _ => Err(Fault::form(line).into()),
    }
}

impl<'a> Reader<'a> {
    // Begins at the first line of a text that is not too long. A line that spells a form reads as that form.
    #[tactic(auto, using(crate::proofs::Spelling::reads_back))]
    pub fn new(text: &'a [u8]) -> Result<Reader<'a>, Fault>
        ensures value { result ≡ begun text.now }
        ensures law { ReadsBack }
    {
        if text.len() > LONGEST {
            return Err(Fault::length());
        }
        Ok(Reader { text, at: 0 })
    }

    // Whether no line is left. An empty text has one line, which is blank.
    fn past_end(&self) -> bool
        ensures { result ≡ past_end self.now.text self.now.at }
    {
        self.at >= self.text.len() && self.at > 0
    }

    // Where the next line ends.
    fn end_of_line(&self) -> usize
        ensures end { result ≡ line_end self.now.text self.now.at }
        ensures within { self.now.at ≤ length self.now.text → result ≤ length self.now.text }
    {
        match self.text.get(self.at..) {
            Some(rest) => self.at + line_length(rest),
            None => self.at,
        }
    }

    // Reads the next line, if there is one.
    #[tactic(auto, using(crate::proofs::Endings::not_past))]
    pub fn next(&mut self, heap: Global) -> Result<Option<Form>, ReadError>
        ensures answer { IsRead result (next_read self.old) }
        ensures after { self.new ≡ next_place self.old }
    {
        if self.past_end() {
            return Ok(None);
        }
        let line = self.at;
        let end = self.end_of_line();
        self.at = after_line(self.text, end);
        let form = read_line(heap, front(self.text, end), line)?;
        Ok(Some(form))
    }
}
