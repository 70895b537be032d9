//! The scripts that machines are given.
ghost use Rattle.std.specs.{Prelude.{◌≡◌, ◌≤◌, ◌+◌, ◌++◌, [], ◌∷◌, List, ℕ, IfOk, OnOk, IsSome, All, length, map, option_map, string_bytes, codes}, Fmt.decimal};
ghost use Rattle.hex.specs.Hex.{encode_lower};
ghost use Rattle.ipxe_script.specs.{Script.IsScript, Word.IsWord};
ghost use Rattle.hall_types.specs.Kinds.{erase_text, purpose_text};
ghost use Rattle.ipxe_script.specs.declared.command.Command.TheVariants as line;
ghost use Rattle.boot_desk.specs.Texts.{desk_arguments, erase_argument, hold_script, local_script, script_of, work_script};

use crate::class::{ScriptClass, script_for};
use hall_types::{Arch, Boot, Erase, Image, Machine, Number, Purpose, Token};
use ipxe_script::{Command, Script, Uri, Word, WordFault, Words, one_spelling, read};
use pxe_vendor::Place;
use std::alloc::{AllocError, Global};

// The maximum of the desk's own arguments.
const DESK_ARGS: usize = 5;

// A word whose text is known to be one.
fn word(alloc: Global, text: &str) -> Result<Word, AllocError>
    requires { IsWord text.now }
    ensures { IfOk result (λ word. word ≡ text.now) }
{
    match Word::new(alloc, text) {
        Ok(word) => Ok(word),
        Err(WordFault::BadWord) => unreachable!(),
        Err(WordFault::Memory) => Err(AllocError),
    }
}

#[tactic(auto, using(crate::specs::TextLaws::purpose_word))]
fn purpose_word(alloc: Global, purpose: Purpose) -> Result<Word, AllocError>
    ensures { IfOk result (λ word. word ≡ codes "hall.purpose=" ++ purpose_text purpose) }
{
    let text = format!(in alloc; "hall.purpose={}", purpose.text())?;
    word(alloc, text.as_str())
}

#[tactic(auto, using(crate::specs::TextLaws::erase_word))]
fn erase_word(alloc: Global, erase: Erase) -> Result<Word, AllocError>
    ensures { IfOk result (λ word. word ≡ codes "hall.erase=" ++ erase_text erase) }
{
    let text = format!(in alloc; "hall.erase={}", erase.text())?;
    word(alloc, text.as_str())
}

#[tactic(auto, using(crate::specs::TextLaws::boot_word))]
fn boot_word(alloc: Global, number: Number) -> Result<Word, AllocError>
    ensures { IfOk result (λ word. word ≡ codes "hall.boot=" ++ decimal number) }
{
    let text = format!(in alloc; "hall.boot={}", number.get())?;
    word(alloc, text.as_str())
}

#[tactic(auto, using(crate::specs::TextLaws::token_word))]
fn token_word(alloc: Global, token: Token) -> Result<Word, AllocError>
    ensures { IfOk result (λ word. word ≡ codes "hall.token=" ++ encode_lower token) }
{
    let digits = hex::encode(alloc, token.octets())?;
    let text = format!(in alloc; "hall.token={digits}")?;
    word(alloc, text.as_str())
}

#[tactic(auto, using(crate::specs::TextLaws::desk_word))]
fn desk_word(alloc: Global, place: &Place) -> Result<Word, AllocError>
    ensures { IfOk result (λ word. word ≡ codes "hall.desk=http://" ++ place.now.host) }
{
    let text = format!(in alloc; "hall.desk=http://{}", place.host())?;
    word(alloc, text.as_str())
}

// An image's arguments, with room for the desk's.
fn image_args(alloc: Global, image: &Image) -> Result<Vec<Word>, AllocError>
    ensures args { IfOk result (λ args. args.items ≡ image.now.args) }
    ensures few { length image.now.args ≤ 24 }
{
    let words = image.args();
    let mut args = Vec::with_capacity(alloc, words.len() + DESK_ARGS)?;
    for word in words {
        args.push(word.copy(alloc)?)?;
    }
    Ok(args)
}

#[tactic(auto, using(crate::specs::TextLaws::few_erase_arguments))]
fn push_erase(
    alloc: Global,
    args: &mut Vec<Word>,
    purpose: Purpose,
    erase: Option<Erase>,
) -> Result<(), AllocError>
    ensures args { OnOk result (args.new.items ≡ args.old.items ++ erase_argument purpose erase) }
    ensures few { length (erase_argument purpose erase) ≤ 1 }
{
    if let (Purpose::Erase, Some(erase)) = (purpose, erase) {
        args.push(erase_word(alloc, erase)?)?;
    }
    Ok(())
}

fn push_desk_arguments(
    alloc: Global,
    args: &mut Vec<Word>,
    place: &Place,
    purpose: Purpose,
    erase: Option<Erase>,
    boot: &Boot,
) -> Result<(), AllocError>
    ensures args { OnOk result (args.new.items ≡ args.old.items ++ desk_arguments place.now.host purpose erase boot.now) }
    ensures few { length (desk_arguments place.now.host purpose erase boot.now) ≤ 5 }
{
    args.push(purpose_word(alloc, purpose)?)?;
    push_erase(alloc, args, purpose, erase)?;
    args.push(boot_word(alloc, boot.number)?)?;
    args.push(token_word(alloc, boot.token)?)?;
    args.push(desk_word(alloc, place)?)?;
    Ok(())
}

// An image's arguments, and then the desk's.
fn arguments(
    alloc: Global,
    place: &Place,
    purpose: Purpose,
    erase: Option<Erase>,
    boot: &Boot,
    image: &Image,
) -> Result<Words, AllocError>
    ensures args { IfOk result (λ args. args ≡ image.now.args ++ desk_arguments place.now.host purpose erase boot.now) }
    ensures few { IfOk result (λ args. length args ≤ 29) }
{
    let mut args = image_args(alloc, image)?;
    push_desk_arguments(alloc, &mut args, place, purpose, erase, boot)?;
    Ok(Words::from(args))
}

// A script whose commands are known to be one.
fn script(commands: Vec<Command>) -> Script
    requires { IsScript commands.items }
    ensures { result ≡ commands.items }
{
    match Script::new(commands) {
        Ok(script) => script,
        Err(_) => unreachable!(),
    }
}

/// The script of a machine that boots its own disk.
#[tactic(auto, using(crate::specs::TextLaws::local_is_script), unfolding(crate::specs::Texts::local_script))]
pub(crate) fn local_script(alloc: Global, arch: Arch) -> Result<Script, AllocError>
    ensures { IfOk result (λ script. script ≡ local_script arch) }
{
    let command = match arch {
        Arch::Bios => Command::Sanboot,
        Arch::Uefi32 | Arch::Uefi64 | Arch::Arm64 => Command::Exit,
    };
    Ok(script(vec![in alloc; command]?))
}

const HELD: &str = "#!ipxe\necho This machine is held by the hall desk\npoweroff\n";

/// The script of a machine that is held.
#[tactic(auto, using(crate::specs::TextLaws::held, crate::specs::TextLaws::hold_is_script))]
pub(crate) fn hold_script(alloc: Global) -> Result<Script, AllocError>
    ensures { IfOk result (λ script. script ≡ hold_script) }
{
    // The law of spellings, which the proof needs.
    one_spelling();
    match read(alloc, HELD) {
        Ok(script) => Ok(script),
        Err(_) => Err(AllocError),
    }
}

// A kernel with its arguments, its initrd, and `boot`.
#[tactic(auto, using(crate::specs::TextLaws::boot_is_script))]
fn boot_script(alloc: Global, kernel: Uri, args: Words, initrd: Uri) -> Result<Script, AllocError>
    requires { length args ≤ 29 }
    ensures { IfOk result (λ script. script ≡ line.Kernel kernel args ∷ line.Initrd initrd ∷ line.Boot ∷ []) }
{
    // Reading them makes it known to the proof that they are URIs and words.
    let _ = kernel.text();
    let _ = args.as_slice();
    let _ = initrd.text();
    let commands = vec![in alloc;
        Command::Kernel { uri: kernel, args },
        Command::Initrd { uri: initrd },
        Command::Boot,
    ]?;
    Ok(script(commands))
}

/// The script of a machine that boots an image for a purpose.
#[tactic(auto, unfolding(crate::specs::Texts::work_script))]
pub(crate) fn work_script(
    alloc: Global,
    place: &Place,
    purpose: Purpose,
    erase: Option<Erase>,
    boot: &Boot,
    image: &Image,
) -> Result<Script, AllocError>
    ensures { IfOk result (λ script. script ≡ work_script place.now.host purpose erase boot.now image.now) }
{
    let args = arguments(alloc, place, purpose, erase, boot, image)?;
    let kernel = image.kernel().copy(alloc)?;
    let initrd = image.initrd().copy(alloc)?;
    boot_script(alloc, kernel, args, initrd)
}

/// The script for a machine in its status. `work` has the machine's current boot and the image for it, where its
/// status is one of work: its own image to be deployed, else the live image of its architecture. Without them the
/// machine is held.
pub fn script_text(
    alloc: Global,
    machine: &Machine,
    work: Option<(&Boot, &Image)>,
    place: &Place,
) -> Result<Script, AllocError>
    ensures { IfOk result (λ script. script ≡ script_of place.now.host machine.now (option_map (λ pair. (pair.0.now, pair.1.now)) work.entry)) }
{
    match (script_for(machine), work) {
        (ScriptClass::Local, _) => local_script(alloc, machine.arch),
        (ScriptClass::Work(purpose), Some((boot, image))) => {
            work_script(alloc, place, purpose, machine.erase, boot, image)
        }
        (ScriptClass::Work(_), None) | (ScriptClass::Hold, _) => hold_script(alloc),
    }
}
