// UTF-8 by RFC 3629, section 4: the octets of a text that is not all ASCII are read through the tables, from left to right, and a
// number says which octets are still due before the character that has begun is whole.
#![tactic(auto)]

mod tables;

ghost use Rattle.std.specs.Prelude.{◌≡◌, ◌<◌, ◌≤◌};
ghost use Rattle.utf8.specs.Utf8.{follow, is_utf8};
ghost use Rattle.utf8.specs.Classes.{ClassTable, StepTable, next_of, due as dueOf, is_ascii};

use tables::{CLASSES, STEPS};

// Nothing is due: a character may begin, or the text may end.
const NOTHING: u8 = 0;
// The octets read so far begin no UTF-8.
const REFUSED: u8 = 8;

// Whether every octet is below 0x80: most texts are, and then the tables are not needed. The fold stops nowhere, so that the
// compiler can take many octets in one step: the library's `is_ascii` was up to twice as slow on texts of 65 to 200 octets.
fn is_ascii(text: &[u8]) -> bool
    ensures { result ≡ is_ascii text.now }
{
    text.iter().fold(0, |top: u8, octet| top.max(*octet)) < 0x80
}

// The tables as values: a caller lays them out once, and not anew for each octet.
fn class_table() -> [u8; 256]
    ensures { ClassTable result }
{
    CLASSES
}

fn step_table() -> [u8; 96]
    ensures { StepTable result }
{
    STEPS
}

// What is due after an octet, where `due` was due before it.
fn next_due(classes: &[u8; 256], steps: &[u8; 96], due: u8, octet: u8) -> u8
    requires { ClassTable classes.now × StepTable steps.now × (due < 8) }
    ensures { (next_of result ≡ follow (dueOf due) octet) × (result ≤ 8) }
{
    let class = usize::from(classes[usize::from(octet)]);
    steps[usize::from(due) * 12 + class]
}

// The octets one by one, through the tables.
fn is_followed(text: &[u8]) -> bool
    ensures { result ≡ is_utf8 text.now }
{
    let classes = class_table();
    let steps = step_table();
    let mut due = NOTHING;
    for octet in text {
        due = next_due(&classes, &steps, due, *octet);
        if due == REFUSED {
            return false;
        }
    }
    due == NOTHING
}

// Whether a text is UTF-8.
#[tactic(auto, using(crate::proofs::Turns::ascii_utf8))]
pub fn is_utf8(text: &[u8]) -> bool
    ensures { result ≡ is_utf8 text.now }
{
    is_ascii(text) || is_followed(text)
}
