// From a procedure to its flat code.

ghost use Rattle.std.specs.Prelude.{◌≡◌, ◌≤◌, IfOk};
ghost use Rattle.straight_line.specs.Form.{statement_limit};
ghost use Rattle.x64_syntax.specs.inner.Nodes.{prog};
ghost use Rattle.vale_driver.specs.Build.{straight_code, lowered_code};

use code_lower::lower;
use sqlite_items::Items;
use std::alloc::{AllocError as NoMemory, Global};
use straight_line::StraightLine;
use x64_syntax::{Code, Ins, Item, Node};

// The code of instructions one after another, none of which accesses memory.
fn code_of(alloc: Global, instructions: &[Ins]) -> Result<Code, NoMemory>
    ensures { IfOk result (λ code. prog code ≡ straight_code instructions.now) }
{
    let mut code = Items::new(alloc);
    for ins in instructions {
        code.push(Node::Ins {
            ins: *ins,
            block: None,
        })?;
    }
    Ok(code)
}

/// The lowered code of a procedure's export.
pub(crate) fn items_of(alloc: Global, program: &StraightLine) -> Result<Vec<Item>, NoMemory>
    ensures { IfOk result (λ items. items.items ≡ lowered_code program.now) }
{
    let code = code_of(alloc, program.instructions.as_slice())?;
    lower(alloc, 0, &program.export, &code)
}
