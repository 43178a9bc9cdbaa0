//! How many wires and rows each lane of a board has, by its head.

ghost use Rattle.std.specs.Prelude.{◌≡◌, ◌≤◌};
ghost use Rattle.vk_vickrey.specs.Sales.{sale_at};
ghost use Rattle.vk_vickrey.specs.BoardPlans.{board_wire_count, board_row_count};
ghost use Rattle.vk_board.specs.Values.{IsHead};
ghost use Rattle.vk_report.specs.Reports.{head_numbers};

use vk_board::Head;
use vk_vickrey::{Sale, board_row_count, board_wire_count};

/// How many wires each lane of a board with this head has, its inputs among them.
pub fn wire_count_of(head: &Head) -> u32
    requires { IsHead head.now }
    ensures count { result ≡ board_wire_count (head_numbers head.now) }
    ensures inputs { head.now.seals ≤ result }
{
    let sale = sale_in(head);
    board_wire_count(head.version, head.seals, head.width, head.reserve, sale)
}

/// How many rows each lane of a board with this head has.
pub fn row_count_of(head: &Head) -> u32
    requires { IsHead head.now }
    ensures { result ≡ board_row_count (head_numbers head.now) }
{
    let sale = sale_in(head);
    board_row_count(head.version, head.seals, head.reserve, sale)
}

/// What the head tells of the sale. The counts don't ask where the winner's seal stands, so the
/// seat stands for its place.
fn sale_in(head: &Head) -> Sale
    ensures { result ≡ sale_at head.now.winner head.now.price }
{
    Sale::at(head.winner.map(u32::from), head.price)
}
