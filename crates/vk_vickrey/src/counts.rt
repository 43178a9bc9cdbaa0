// How large the plan of an auction is, known from its head.
ghost use Rattle.std.specs.Prelude.{◌≡◌, ◌≤◌, ℕ};
ghost use Rattle.vk_vickrey.specs.VickreyPlans.{wire_count, row_count};
ghost use Rattle.vk_vickrey.specs.ReservePlans.{sale_wire_count, sale_row_count};
ghost use Rattle.vk_vickrey.specs.BoardPlans.{board_numbers, board_wire_count, board_row_count};

use crate::sales::Sale;

/// How many wires each lane has, the inputs included, for so many seals and bids of that width. At
/// most 10311.
pub fn wire_count(seals: u32, width: u32) -> u32
    requires some_seals { 1 ≤ seals }
    requires most_seals { seals ≤ 64 }
    requires most_width { width ≤ 40 }
    ensures count { result ≡ wire_count seals width }
    ensures few { result ≤ 10311 }
    ensures inputs { seals ≤ result }
{
    2 * seals + (seals - 1) + width * (4 * seals - 3)
}

/// How many rows each lane has. At most 318.
pub fn row_count(seals: u32) -> u32
    requires some_seals { 1 ≤ seals }
    requires most_seals { seals ≤ 64 }
    ensures count { result ≡ row_count seals }
    ensures few { result ≤ 318 }
{
    if seals == 1 { 2 } else { 5 * seals - 2 }
}

/// How many wires each lane has where a sale is published under a reserve. At most 10311.
pub fn sale_wire_count(seals: u32, width: u32, reserve: u64, sale: Sale) -> u32
    requires some_seals { 1 ≤ seals }
    requires most_seals { seals ≤ 64 }
    requires most_width { width ≤ 40 }
    ensures count { result ≡ sale_wire_count seals width reserve sale }
    ensures few { result ≤ 10311 }
    ensures inputs { seals ≤ result }
{
    match sale {
        Sale::Sold { price, .. } => {
            if price > reserve {
                return wire_count(seals, width);
            }
            2 * seals + (3 * seals - 1) * width
        }
        Sale::Unsold => 2 * seals + 2 * seals * width,
    }
}

/// How many rows each lane has then. At most 318.
pub fn sale_row_count(seals: u32, reserve: u64, sale: Sale) -> u32
    requires some_seals { 1 ≤ seals }
    requires most_seals { seals ≤ 64 }
    ensures count { result ≡ sale_row_count seals reserve sale }
    ensures few { result ≤ 318 }
{
    match sale {
        Sale::Sold { price, .. } => {
            if price > reserve {
                return row_count(seals);
            }
            4 * seals - 1
        }
        Sale::Unsold => 3 * seals,
    }
}

/// How many wires each lane has by what a board of version 1 or 2 publishes. At most 10311.
pub fn board_wire_count(version: u32, seals: u32, width: u32, reserve: u64, sale: Sale) -> u32
    requires some_seals { 1 ≤ seals }
    requires most_seals { seals ≤ 64 }
    requires most_width { width ≤ 40 }
    ensures count { result ≡ board_wire_count (board_numbers version seals width reserve sale) }
    ensures few { result ≤ 10311 }
    ensures inputs { seals ≤ result }
{
    if version == 1 {
        wire_count(seals, width)
    } else {
        sale_wire_count(seals, width, reserve, sale)
    }
}

/// How many rows each lane has then. At most 318.
pub fn board_row_count(version: u32, seals: u32, reserve: u64, sale: Sale) -> u32
    requires some_seals { 1 ≤ seals }
    requires most_seals { seals ≤ 64 }
    ensures count { (width : ℕ)
        → result ≡ board_row_count (board_numbers version seals width reserve sale) }
    ensures few { result ≤ 318 }
{
    if version == 1 {
        row_count(seals)
    } else {
        sale_row_count(seals, reserve, sale)
    }
}
