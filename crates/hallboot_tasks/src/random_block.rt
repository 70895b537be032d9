//! Random octets, had in blocks.
ghost use Rattle.std.specs.Prelude.{◌≡◌, ◌<◌, ◌++◌, ◌↔◌, [], length, IsNone, IfNone, IfSome, OnErr, OnOk};
ghost use Rattle.hallboot_tasks.specs.RandomBlock.{TakesNext};

use hall_types::Token;
use rand_core::TryRng;
use std::marker::Model;

// How many octets are had at once, those of 256 tokens.
const BLOCK: usize = 4_096;

// The octets of a token.
const TOKEN: usize = 16;

/// A block of random octets, of which each token takes the next 16. Contracts see the octets that no token has taken.
#[derive(Drop)]
pub(crate) struct RandomBlock {
    octets: [u8; BLOCK],
    taken: usize,
}

impl Model for RandomBlock {
    ghost use Rattle.std.specs.Prelude.{◌≤◌, ℕ, List, drop};

    ghost Value = { List ℕ };

    ghost view = { λ block. drop block.taken block.octets };

    ghost invariant = { λ block. block.taken ≤ 4096 };
}

impl RandomBlock {
    /// Nothing was had yet.
    pub fn new() -> RandomBlock
        ensures { result ≡ [] }
    {
        RandomBlock {
            octets: [0; BLOCK],
            taken: BLOCK,
        }
    }

    // The next 16 octets, which no later token takes. None where there are fewer.
    fn take(&mut self) -> Option<Token>
        ensures next { IfSome result (λ token. self.old ≡ token ++ self.new) }
        ensures size { IfSome result (λ token. length token ≡ TOKEN) }
        ensures none { IsNone result ↔ (length self.old < TOKEN) }
        ensures same { IfNone result (self.new ≡ self.old) }
    {
        let (_, left) = self.octets.split_at(self.taken);
        let (next, _) = left.split_first_chunk::<TOKEN>()?;
        let token = Token::from(*next);
        self.taken += TOKEN;
        Some(token)
    }

    // Has a new block from the source, in one call.
    fn fill<R: TryRng>(&mut self, source: &mut R) -> Result<(), R::Error>
        ensures given { OnOk result (R.TryRng.may_fill source.old self.new source.new) }
        ensures size { OnOk result (length self.new ≡ BLOCK) }
        ensures none { OnErr result (self.new ≡ []) }
    {
        self.taken = BLOCK;
        source.try_fill_bytes(&mut self.octets)?;
        self.taken = 0;
        Ok(())
    }

    /// The next 16 octets, from a new block of the source where this one has no more. None where the source gives no block.
    pub fn token<R: TryRng>(&mut self, source: &mut R) -> Option<Token>
        ensures next { IfSome result (λ token. TakesNext R.TryRng.may_fill self.old source.old token self.new source.new) }
        ensures none { IfNone result (length self.old < TOKEN) }
        ensures left { IfNone result (self.new ≡ []) }
    {
        if let Some(token) = self.take() {
            return Some(token);
        }
        self.fill(source).ok()?;
        self.take()
    }
}
