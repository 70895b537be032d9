//! The boot file for a client.
ghost use Rattle.std.specs.Prelude.{◌≡◌, ◌≢◌, ◌≤◌, All, IfOk, length, string_bytes};
ghost use Rattle.dhcp_frame.specs.declared.reply.TheConstants.{MAX_FILE_LEN};
ghost use Rattle.pxe_vendor.specs.BootFile.{loader_file, script_url, boot_file_of};

use crate::arch::Arch;
use crate::clients::Client;
use crate::place::Place;
use std::alloc::{AllocError, Global};

/// The name of the loader for an architecture: iPXE, built for it.
#[tactic(auto, unfolding(crate::specs::BootFile::loader_file))]
pub fn loader_file(arch: Arch) -> &'static str
    ensures { result.now ≡ loader_file arch }
{
    match arch {
        Arch::Bios => "undionly.kpxe",
        Arch::Uefi32 => "ipxe-i386.efi",
        Arch::Uefi64 => "ipxe-x86_64.efi",
        Arch::Arm64 => "ipxe-arm64.efi",
    }
}

/// The URL of the script for a machine with this Ethernet address, `http://HOST/ipxe/ADDRESS`. The only
/// error is that memory ran out.
pub fn script_url(alloc: Global, place: &Place, mac: &[u8; 6]) -> Result<String, AllocError>
    ensures url { IfOk result (λ url. string_bytes url ≡ script_url place.now.host mac.now) }
    // It has no zero octet.
    ensures named { IfOk result (λ url. All (λ octet. octet ≢ 0) (string_bytes url)) }
    // It fits the file field of a reply.
    ensures short { IfOk result (λ url. length (string_bytes url) ≤ MAX_FILE_LEN) }
{
    let mut url = String::from_str(alloc, "http://")?;
    url.push_str(place.host())?;
    url.push_str("/ipxe/")?;
    crate::push_mac(&mut url, mac)?;
    Ok(url)
}

/// The boot file for a client: the URL of its script for iPXE, and the loader for other clients. The
/// only error is that memory ran out.
pub fn boot_file(alloc: Global, client: &Client, place: &Place) -> Result<String, AllocError>
    ensures file { IfOk result (λ file. string_bytes file ≡ boot_file_of client.now place.now) }
    // It has no zero octet.
    ensures named { IfOk result (λ file. All (λ octet. octet ≢ 0) (string_bytes file)) }
    // It fits the file field of a reply.
    ensures short { IfOk result (λ file. length (string_bytes file) ≤ MAX_FILE_LEN) }
{
    if client.ipxe {
        script_url(alloc, place, &client.mac)
    } else {
        String::from_str(alloc, loader_file(client.arch))
    }
}
