// The rule that the table of a board keeps: `IsBoard` of `specs/Rule.antt`.
use crate::views::{Size, View};
use atomic_table::TableRule;

pub struct BoardRule;

impl TableRule<(), View, Size> for BoardRule {
    ghost use Rattle.jf_board.specs.Rule.{IsBoard, opening_view};

    ghost holds = { λ size. IsBoard size.passes };

    ghost first = { opening_view };
}
