ghost use Rattle.std.specs.Prelude.{◌≡◌, ◌++◌, ◌≤◌, IfOk, OnOk};
ghost use Rattle.generated_module.specs.Generated.{procedure, call, texts_below, generated};

use arrayvec::ArrayString;
use itoa::Buffer;
use iv_words::{Memory, Word};
use std::alloc::Global;

/// A line has two numbers of ten digits at most, and 68 bytes besides.
const LONGEST_LINE: usize = 88;

/// The line of a procedure.
fn procedure(i: u32) -> ArrayString<LONGEST_LINE>
    ensures { result.bytes ≡ procedure i }
{
    let mut number = Buffer::new();
    let mut line = ArrayString::new();
    line.push_str("proc p");
    line.push_str(number.format(i));
    line.push_str("(x : uint32_t) { let y = x % 97 + ");
    line.push_str(number.format(i));
    line.push_str("; *acc = *acc *% 31 +% y; }");
    line.push_str("\n");
    line
}

/// The line of a call.
fn call(i: u32) -> ArrayString<LONGEST_LINE>
    ensures { result.bytes ≡ call i }
{
    let mut number = Buffer::new();
    let mut line = ArrayString::new();
    line.push_str("  p");
    line.push_str(number.format(i));
    line.push_str("(x);");
    line.push_str("\n");
    line
}

#[tactic(auto, using(crate::proofs::Texts::one_more))]
fn add_procedures(text: &mut Word, k: u32) -> Result<(), Memory>
    ensures { OnOk result (text.new ≡ text.old ++ texts_below procedure k) }
{
    for i in 0..k {
        text.extend_from_slice(procedure(i).as_bytes())?;
    }
    Ok(())
}

#[tactic(auto, using(crate::proofs::Texts::one_more))]
fn add_calls(text: &mut Word, k: u32) -> Result<(), Memory>
    ensures { OnOk result (text.new ≡ text.old ++ texts_below call k) }
{
    for i in 0..k {
        text.extend_from_slice(call(i).as_bytes())?;
    }
    Ok(())
}

/// The text of a module with `k` procedures `p0`, `p1` and so on, and a procedure `all` that calls each of them.
///
/// # Errors
///
/// Want of memory alone.
pub fn generate(alloc: Global, k: u32) -> Result<Word, Memory>
    requires some { 1 ≤ k }
    requires few { k ≤ 2000 }
    ensures { IfOk result (λ text. text ≡ generated k) }
{
    let mut text = Word::new(alloc);
    text.extend_from_slice(b"module big;\narea acc : uint32_t;\n")?;
    add_procedures(&mut text, k)?;
    text.extend_from_slice(b"export proc all(x : uint32_t) -> uint32_t {\n")?;
    add_calls(&mut text, k)?;
    text.extend_from_slice(b"  return *acc;\n}\n")?;
    Ok(text)
}
