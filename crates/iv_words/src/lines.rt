ghost use Rattle.std.specs.Prelude.{◌≡◌, ◌-◌, ◌^◌, ◌<◌, ◌≤◌, length};
ghost use Rattle.iv_words.specs.Lines.{line, column};

/// The line and the column of the byte place `at` in a text, both from 1. A line ends at byte 10.
#[tactic(auto, using(crate::proofs::Columns::one_more))]
pub fn line_of(text: &[u8], at: u32) -> (u32, u32)
    requires within { at ≤ length text.now }
    requires small { at < 2 ^ 32 - 1 }
    ensures line { result.0 ≡ line text.now at }
    ensures column { result.1 ≡ column text.now at }
{
    let mut line = 1;
    let mut column = 1;
    for byte in &text[..at as usize] {
        if *byte == b'\n' {
            line += 1;
            column = 1;
        } else {
            column += 1;
        }
    }
    (line, column)
}
