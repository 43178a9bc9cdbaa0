ghost use Rattle.std.specs.Prelude.{◌≡◌, ◌<◌};
ghost use Rattle.vk_range.specs.Others.{other as OtherPlace};

/// The k-th place other than that one, in ascending order; all count from 0. For k below 2^32 - 1.
pub fn other(place: u32, k: u32) -> u32
    requires { k < 4294967295 }
    ensures { result ≡ OtherPlace place k }
{
    if k < place { k } else { k + 1 }
}
