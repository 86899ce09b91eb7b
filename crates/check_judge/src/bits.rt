//! The bits that are left.
ghost use Rattle.std.specs.Prelude.{◌≡◌, ◌⊎◌, ◌↔◌, ◌+◌, ◌-◌, ◌*◌, ◌^◌, ◌<◌, ◌≤◌, IfSome, IsNone, IsTrue};
ghost use Rattle.check_judge.specs.Bits.{MeetsTarget, alphas_of};

use check_words::BitsRequest;

/// At how few challenges a batch that does not balance is accepted.
#[derive(Clone, Copy)]
pub struct Deceiving {
    /// The betas that are bad.
    pub betas: u128,
    /// The alphas that are accepting at every other beta, or none if the batch balances.
    pub alphas: Option<u128>,
}

impl Deceiving {
    /// Those of so many messages of which so many are unbalanced, over tuples of at most `width`
    /// values.
    pub fn of_request(request: BitsRequest<'_>) -> Deceiving
        ensures betas { result.betas ≡ request.entry.width * (request.entry.unbalanced - 1) }
        ensures alphas { result.alphas ≡ alphas_of request.entry.messages request.entry.unbalanced }
    {
        let others = request.unbalanced.saturating_sub(1);
        Deceiving {
            betas: u128::from(request.width).saturating_mul(u128::from(others)),
            alphas: if request.unbalanced == 0 {
                None
            } else {
                Some(u128::from(request.messages).saturating_add(u128::from(others)))
            },
        }
    }

    /// How many bits are left among so many challenges, 0 if all of them deceive; none if there is
    /// nothing to be wrong about.
    pub fn bits_among(self, challenges: u128) -> Option<u32> {
        let alphas = self.alphas?;
        Some(bits_of(challenges, self.betas.saturating_add(alphas)).unwrap_or(0))
    }

    /// Whether as many bits are left among so many challenges as are wanted.
    pub fn meets(self, challenges: u128, target: Option<u64>) -> bool
        ensures { IsTrue result ↔ MeetsTarget challenges target self.betas self.alphas }
    {
        let (Some(wanted), Some(alphas)) = (target, self.alphas) else {
            return true;
        };
        leaves(challenges, self.betas.saturating_add(alphas), wanted)
    }
}

/// Whether at least `wanted` bits are left where `bad` of `size` choices deceive; no bit always is.
fn leaves(size: u128, bad: u128, wanted: u64) -> bool
    ensures { IsTrue result ↔ ((wanted ≡ 0) ⊎ (bad * 2 ^ wanted ≤ size)) }
{
    match bits_of(size, bad) {
        Some(bits) => wanted <= u64::from(bits),
        None => wanted == 0 || bad == 0,
    }
}

/// The greatest `b` with `bad * 2^b <= size`: where `bad` of `size` choices deceive, at least `b`
/// bits are left. `None` if `bad` is zero or above `size`.
pub fn bits_of(size: u128, bad: u128) -> Option<u32>
    ensures some { IfSome result (λ b. (bad * 2 ^ b ≤ size) × (size < bad * 2 ^ (b + 1))) }
    ensures none { IsNone result ↔ ((bad ≡ 0) ⊎ (size < bad)) }
{
    if bad == 0 || size < bad {
        None
    } else {
        Some((size / bad).ilog2())
    }
}
