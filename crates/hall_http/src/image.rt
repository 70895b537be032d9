//! The image that a command adds.
ghost use Rattle.std.specs.Prelude.{◌≡◌, IfOk};
ghost use Rattle.hall_http.specs.{Prelude.view, Command.image_at, Value.image_of};

use crate::member::{arch_at, name_at, uri_at, words_at};
use hall_types::{Image, Name};
use ipxe_script::{Uri, Word};
use pxe_vendor::Arch;
use serde_json::Value;
use std::alloc::{AllocError, Global};

// The image with these parts, if its arguments may be an image's.
fn image_of(name: Name, arch: Arch, kernel: Uri, initrd: Uri, args: Vec<Word>) -> Option<Image>
    ensures { result ≡ image_of (record { name = name; arch = arch; kernel = kernel; initrd = initrd; args = args.items }) }
{
    Image::new(name, arch, kernel, initrd, args).ok()
}

pub(crate) fn image_at(alloc: Global, json: &Value) -> Result<Option<Image>, AllocError>
    ensures { IfOk result (λ image. image ≡ image_at (view json.now)) }
{
    let Some(name) = name_at(json, "image") else {
        return Ok(None);
    };
    let Some(arch) = arch_at(json) else {
        return Ok(None);
    };
    let Some(kernel) = uri_at(alloc, json, "kernel")? else {
        return Ok(None);
    };
    let Some(initrd) = uri_at(alloc, json, "initrd")? else {
        return Ok(None);
    };
    let Some(args) = words_at(alloc, json)? else {
        return Ok(None);
    };
    Ok(image_of(name, arch, kernel, initrd, args))
}
