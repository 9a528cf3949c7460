// The forms that hold no list.
ghost use Rattle.std.specs.Prelude.{◌≡◌};
ghost use Rattle.forms.specs.Signs.{ahead, parsed};
ghost use Rattle.forms.specs.Forms.{policy_of, policy_in, share_in, submission_in};

use crate::parts::{field, kind, number, word};
use crate::values::{Policy, Share, Submission};
use tokens::Lexer;

// None, since a word that names no controller is one fault with any other bad form.
fn policy_of(word: &[u8]) -> Option<Policy>
    ensures { result ≡ policy_of word.now }
{
    match word {
        b"come" => Some(Policy::FirstCome),
        b"turns" => Some(Policy::Turns),
        _ => None,
    }
}

pub fn policy(lexer: &mut Lexer) -> Option<Policy>
    ensures { parsed result (ahead lexer.new) ≡ policy_in (ahead lexer.old) }
{
    let word = word(lexer)?;
    policy_of(word)
}

pub fn share(lexer: &mut Lexer) -> Option<Share>
    ensures { parsed result (ahead lexer.new) ≡ share_in (ahead lexer.old) }
{
    let domain = number(lexer)?;
    let slots = field(lexer, b"share")?;
    Some(Share { domain, slots })
}

pub fn submission(lexer: &mut Lexer) -> Option<Submission>
    ensures { parsed result (ahead lexer.new) ≡ submission_in (ahead lexer.old) }
{
    let domain = number(lexer)?;
    let bank = field(lexer, b"bank")?;
    let kind = kind(lexer)?;
    let row = field(lexer, b"row")?;
    Some(Submission {
        domain,
        bank,
        kind,
        row,
    })
}
