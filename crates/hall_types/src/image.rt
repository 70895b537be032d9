//! Boot images.
ghost use Rattle.std.specs.{Prelude.{◌≡◌, ◌≤◌, ◌<◌, ◌↔◌, true, false, length, IfOk, IsOk, IsErrOf}, List.list_any};
ghost use Rattle.ipxe_script.specs.Word.{IsUri, is_hall_word};
ghost use Rattle.hall_types.specs.Image.{BootImage, IsImage, has_hall_word};

use crate::name::Name;
use ipxe_script::{Uri, Word, Words};
use pxe_vendor::Arch;
use std::alloc::{AllocError, Global};
use std::marker::Model;
use thiserror::Error;

/// What a machine boots: a kernel with at most 24 arguments, none of which begins `hall.`, and an initrd.
/// Contracts see its parts.
#[derive(Drop)]
pub struct Image {
    name: Name,
    arch: Arch,
    kernel: Uri,
    initrd: Uri,
    args: Words,
}

impl Model for Image {
    ghost use Rattle.std.specs.Prelude.{◌≡◌, ◌≤◌, false, length};
    ghost use Rattle.hall_types.specs.Image.{BootImage, has_hall_word};

    ghost Value = { BootImage };

    ghost view = { λ image. record { name = image.name; arch = image.arch; kernel = image.kernel; initrd = image.initrd; args = image.args } };

    ghost invariant = { λ image. (length image.args ≤ 24) × (has_hall_word image.args ≡ false) };
}

/// The maximum of an image's arguments.
pub const MAX_ARGS: usize = 24;

/// Why an image is refused. TooMany comes before HallWord.
#[derive(Clone, Copy, Debug, PartialEq, Eq, Error)]
pub enum ImageFault {
    #[error("an image has at most 24 arguments")]
    TooMany = 1,
    /// Words that begin `hall.` are written by the desk alone.
    #[error("an argument of an image doesn't begin with hall.")]
    HallWord = 2,
}

fn has_hall_word(words: &[Word]) -> bool
    ensures { result ≡ has_hall_word words.now }
{
    words.iter().any(|word| word.is_hall_word())
}

impl Image {
    /// The image with these parts. It takes no memory.
    pub fn new(
        name: Name,
        arch: Arch,
        kernel: Uri,
        initrd: Uri,
        args: Vec<Word>,
    ) -> Result<Image, ImageFault>
        ensures image { IfOk result (λ image. image ≡ record { name = name; arch = arch; kernel = kernel; initrd = initrd; args = args.items }) }
        ensures good { IsOk result ↔ ((length args.items ≤ 24) × (has_hall_word args.items ≡ false)) }
        ensures too_many { IsErrOf result ImageFault.TooMany ↔ (24 < length args.items) }
        ensures hall_word { IsErrOf result ImageFault.HallWord ↔ ((length args.items ≤ 24) × (has_hall_word args.items ≡ true)) }
    {
        if args.len() > MAX_ARGS {
            return Err(ImageFault::TooMany);
        }
        if has_hall_word(&args) {
            return Err(ImageFault::HallWord);
        }
        Ok(Image {
            name,
            arch,
            kernel,
            initrd,
            args: Words::from(args),
        })
    }

    pub fn name(&self) -> Name
        ensures { result ≡ self.now.name }
    {
        self.name
    }

    pub fn arch(&self) -> Arch
        ensures { result ≡ self.now.arch }
    {
        self.arch
    }

    /// The URI of its kernel.
    pub fn kernel(&self) -> &Uri
        ensures { result.now ≡ self.now.kernel }
    {
        &self.kernel
    }

    /// The URI of its initrd.
    pub fn initrd(&self) -> &Uri
        ensures { result.now ≡ self.now.initrd }
    {
        &self.initrd
    }

    /// Its kernel's arguments.
    pub fn args(&self) -> &[Word]
        ensures args { result.now ≡ self.now.args }
        ensures few { length self.now.args ≤ 24 }
        ensures own { has_hall_word self.now.args ≡ false }
    {
        self.args.as_slice()
    }

    /// What every image is.
    pub fn is_image(&self)
        ensures { IsImage self.now }
    {
        let _ = self.kernel.text();
        let _ = self.initrd.text();
        let _ = self.args.as_slice();
    }

    /// An equal image.
    pub fn copy(&self, alloc: Global) -> Result<Image, AllocError>
        ensures { IfOk result (λ copy. copy ≡ self.now) }
    {
        let kernel = self.kernel.copy(alloc)?;
        let initrd = self.initrd.copy(alloc)?;
        let args = self.args.copy(alloc)?;
        Ok(Image {
            name: self.name,
            arch: self.arch,
            kernel,
            initrd,
            args,
        })
    }
}

/// The image that live systems of an architecture boot.
#[derive(Clone, Copy)]
pub struct Live {
    pub arch: Arch,
    pub image: Name,
}
