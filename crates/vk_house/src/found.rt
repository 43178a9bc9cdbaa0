//! What a house finds under the id of a command.

ghost use Rattle.std.specs.Prelude.{◌≡◌};

use vk_keeper::Auction;

/// What a keeper answered of an id: the auction that is kept under it, if one is.
#[derive(Drop)]
pub struct Found {
    pub id: [u8; 16],
    pub auction: Option<Auction>,
}

impl Found {
    /// That auction, if one is, under that id.
    pub fn under(id: &[u8; 16], auction: Option<Auction>) -> Found
        ensures { result ≡ record { id = id.now; auction = auction } }
    {
        Found { id: *id, auction }
    }
}
