// Between two items of a level: whether it is shut, and where the next item begins.
ghost use Rattle.std.specs.Prelude.{◌≡◌, ◌≤◌, length};
ghost use Rattle.json_theory.specs.Grammar.{is_space};
ghost use Rattle.json_theory.specs.Steps.{Stack, State};
ghost use Rattle.json_theory.specs.Reader.{depth as depth_of};
ghost use Rattle.json_theory.specs.Inside.Scanning.{byte_at, RunTo};
ghost use Rattle.value_table.specs.Value.{max_length};
ghost use Rattle.text_reader.specs.Inside.Progress.{Between, StaysOpen, shuts};
ghost use Rattle.text_reader.specs.Inside.Items.{NextIs};

use crate::Level;
use json_tokens::scan::{BadByte, byte_at, space_end};

// Whether the byte at `at` shuts the innermost open value.
pub fn closes(text: &[u8], at: usize, level: Level) -> bool
    ensures { result ≡ shuts level.depth level.object (byte_at text.now at) }
{
    if level.depth == 0 {
        return false;
    }
    if level.object {
        byte_at(text, at) == 0x7D
    } else {
        byte_at(text, at) == 0x5D
    }
}

// A message stands at the start, or follows white space from `at` to `here`; none, where the text ends.
fn next_message(text: &[u8], at: usize, here: usize, fresh: bool) -> Result<Option<usize>, BadByte>
    requires { RunTo is_space text.now at here }
    ensures { (σ : State) (around : Stack) → Between fresh σ around → depth_of around ≡ 0 → NextIs text.now σ at around result }
{
    if !fresh && at == here {
        return Err(BadByte { at: here });
    }
    Ok((here < text.len()).then_some(here))
}

// What comes behind white space from `at` to `here`, where the innermost level stays open: an item, which follows a comma unless it is
// the first; or nothing, where the text ends.
pub fn next_item(
    text: &[u8],
    at: usize,
    here: usize,
    depth: usize,
    fresh: bool,
) -> Result<Option<usize>, BadByte>
    requires { (length text.now ≤ max_length) × RunTo is_space text.now at here }
    ensures { (σ : State) (around : Stack) → Between fresh σ around → depth_of around ≡ depth → StaysOpen around (byte_at text.now here) →
        NextIs text.now σ at around result }
{
    if depth == 0 {
        return next_message(text, at, here, fresh);
    }
    if fresh {
        return Ok(Some(here));
    }
    if byte_at(text, here) == 0x2C {
        Ok(Some(space_end(text, here + 1)))
    } else {
        Err(BadByte { at: here })
    }
}
