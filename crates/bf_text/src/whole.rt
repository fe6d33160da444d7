//! Texts that are put whole, or not at all.

ghost use Rattle.std.specs.Prelude.{◌≡◌, ◌++◌, OnOk, OnErr, take};
ghost use Rattle.std.specs.Fmt.{decimal};
ghost use Rattle.bf_text.specs.Replies.{values_text, refusal_text};

use crate::pieces::{put_decimal, put_listed};
use crate::replies::put_refusal_text;
use bf_base::{Memory, Value};
use bf_tree::Refusal;

/// Takes back all behind a length where memory ran out while it was put. Takes no memory.
fn keep_whole(out: &mut Vec<u8>, length: usize, put: Result<(), Memory>) -> Result<(), Memory>
    ensures result { result ≡ put }
    ensures ok { OnOk result (out.new.items ≡ out.old.items) }
    ensures err { OnErr result (out.new.items ≡ take length out.old.items) }
{
    if put.is_err() {
        out.truncate(length);
    }
    put
}

/// Appends a number in decimal digits.
pub fn put_number(out: &mut Vec<u8>, number: u64) -> Result<(), Memory>
    ensures ok { OnOk result (out.new.items ≡ out.old.items ++ decimal number) }
    ensures err { OnErr result (out.new.items ≡ out.old.items) }
{
    let length = out.len();
    let put = put_decimal(out, number);
    keep_whole(out, length, put)
}

/// Appends values, with a comma and a space between, in time linear in their text.
pub fn put_values(out: &mut Vec<u8>, values: &[Value]) -> Result<(), Memory>
    ensures ok { OnOk result (out.new.items ≡ out.old.items ++ values_text values.now) }
    ensures err { OnErr result (out.new.items ≡ out.old.items) }
{
    let length = out.len();
    let put = put_listed(out, (), values);
    keep_whole(out, length, put)
}

/// Appends a refusal's text, in time linear in it.
pub fn put_refusal(out: &mut Vec<u8>, refusal: &Refusal) -> Result<(), Memory>
    ensures ok { OnOk result (out.new.items ≡ out.old.items ++ refusal_text refusal.now) }
    ensures err { OnErr result (out.new.items ≡ out.old.items) }
{
    let length = out.len();
    let put = put_refusal_text(out, refusal);
    keep_whole(out, length, put)
}
