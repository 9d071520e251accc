// Whether two chains are the same.
ghost use Rattle.std.specs.Prelude.{◌≡◌, Bool};
ghost use Rattle.std.specs.List.{list_all, zip};
ghost use Rattle.chain.specs.Covers.{same_relay, same_stream, all_alike, same_chain};
ghost use Rattle.chain.specs.Views.{relays_of, streams_of};

use crate::chain::Chain;
use crate::covers::same_curve;
use crate::stream::{Relay, Stream};

// What a relay or stream has to share with its counterpart.
pub trait Alike {
    ghost same: { Self → Self → Bool };

    fn alike(&self, other: &Self) -> bool
        ensures { result ≡ same self.now other.now };
}

impl Alike for Relay {
    ghost same = { same_relay };

    fn alike(&self, other: &Relay) -> bool {
        same_curve(self.curve.lines(), other.curve.lines())
    }
}

impl Alike for Stream {
    ghost same = { same_stream };

    fn alike(&self, other: &Stream) -> bool {
        // `==` would also compare of how many relays the chains are, which is not asked here.
        let stretches = self.stretch.from == other.stretch.from
            && self.stretch.to == other.stretch.to;
        stretches && same_curve(self.curve.lines(), other.curve.lines())
    }
}

fn each_alike<T: Alike>(a: &[T], b: &[T]) -> bool
    ensures { result ≡ list_all (λ p. T.Alike.same p.0 p.1) (zip a.now b.now) }
{
    a.iter().zip(b).all(|(x, y)| x.alike(y))
}

fn all_alike<T: Alike>(a: &[T], b: &[T]) -> bool
    ensures { result ≡ all_alike T.Alike.same a.now b.now }
{
    a.len() == b.len() && each_alike(a, b)
}

impl Chain {
    // No equality: the same curve may be written in other lines.
    pub fn same(&self, other: &Chain) -> bool
        ensures { result ≡ same_chain (relays_of self.now) (streams_of self.now) (relays_of other.now) (streams_of other.now) }
    {
        all_alike(self.relays(), other.relays()) && all_alike(self.streams(), other.streams())
    }
}
