// The form that the signs of a line make.
ghost use Rattle.std.specs.Prelude.{◌≡◌, IfOk};
ghost use Rattle.std.specs.Option.{option_map};
ghost use Rattle.tokens.specs.Lexemes.{started};
ghost use Rattle.forms.specs.Signs.{ahead, parsed, scanned};
ghost use Rattle.forms.specs.Forms.{content, body_in, closed_form_in, heading_in, form_in, form_of};

use crate::grammar::{policy, share, submission};
use crate::lanes::lane;
use crate::parts::{close, number, open, same, word};
use crate::signs::next;
use crate::values::Form;
use std::alloc::{AllocError, Global};
use tokens::Lexer;

// What stands behind the word of a form that holds no list.
fn body(lexer: &mut Lexer, word: &[u8]) -> Option<Form>
    ensures { parsed (option_map content result) (ahead lexer.new) ≡ body_in word.now (ahead lexer.old) }
{
    // One test after another, since the proof of a `match` on these six words does not close.
    if same(word, b"controller") {
        Some(Form::Controller(policy(lexer)?))
    } else if same(word, b"open") {
        Some(Form::Open(share(lexer)?))
    } else if same(word, b"first") {
        Some(Form::First(number(lexer)?))
    } else if same(word, b"begin") {
        Some(Form::Begin)
    } else if same(word, b"submit") {
        Some(Form::Submit(submission(lexer)?))
    } else if same(word, b"ticks") {
        Some(Form::Ticks(number(lexer)?))
    } else {
        None
    }
}

fn closed_form(lexer: &mut Lexer, word: &[u8]) -> Option<Form>
    ensures { parsed (option_map content result) (ahead lexer.new) ≡ closed_form_in word.now (ahead lexer.old) }
{
    let form = body(lexer, word)?;
    close(lexer)?;
    Some(form)
}

fn heading<'a>(lexer: &mut Lexer<'a>) -> Option<&'a [u8]>
    ensures { parsed (option_map (λ x. x.now) result) (ahead lexer.new) ≡ heading_in (ahead lexer.old) }
{
    open(lexer)?;
    word(lexer)
}

fn form(heap: Global, lexer: &mut Lexer) -> Result<Option<Form>, AllocError>
    ensures { IfOk result (λ o. parsed (option_map content o) (ahead lexer.new) ≡ form_in (ahead lexer.old)) }
{
    let Some(word) = heading(lexer) else {
        return Ok(None);
    };
    match word {
        b"lane" => Ok(lane(heap, lexer)?.map(Form::Lane)),
        _ => Ok(closed_form(lexer, word)),
    }
}

// The form that a text makes from a place on, if it makes one form and no more.
pub fn line_form(heap: Global, text: &[u8], at: usize) -> Result<Option<Form>, AllocError>
    ensures { IfOk result (λ o. option_map content o ≡ form_of (scanned (started text.now at)).signs) }
{
    let mut lexer = Lexer::starting_at(text, at);
    let read = form(heap, &mut lexer)?;
    match next(&mut lexer) {
        Some(_) => Ok(None),
        None => Ok(read),
    }
}
