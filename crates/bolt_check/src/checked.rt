//! A file that passed its tests.
ghost use Rattle.std.specs.Prelude.{◌≡◌};
ghost use Rattle.bolt_format.specs.Bytes.{IsBytes};
ghost use Rattle.bolt_check.specs.Sound.{IsTested};

use bolt_format::Meta;

/// A file whose trees are sound for a meta (docs/SOUND.md). Only a test of the file makes
/// one, so its pages may be read without a second test.
#[derive(Clone, Copy)]
pub struct Checked<'a> {
    pub(crate) bytes: &'a [u8],
    pub(crate) meta: Meta,
    pub(crate) accounts: bool,
    pub ghost of_bytes: { IsBytes bytes.now },
    pub ghost sound: { ∥ IsTested bytes.now meta accounts ∥₁ },
}

#[tactic(auto, unfolding(crate::specs::CheckedFiles::checked_viewers))]
impl<'a> Checked<'a> {
    ghost use Rattle.bolt_check.specs.CheckedFiles.{bytes_of, has_accounts, meta_of};

    /// The bytes of the file.
    pub fn bytes(&self) -> &'a [u8]
        ensures { result.now ≡ bytes_of self.now }
    {
        self.bytes
    }

    /// The meta that the file was tested under.
    pub fn meta(&self) -> Meta
        ensures { result ≡ meta_of self.now }
    {
        self.meta
    }

    /// Whether the accounts were tested too, and are right.
    pub fn accounts(&self) -> bool
        ensures { result ≡ has_accounts self.now }
    {
        self.accounts
    }
}
