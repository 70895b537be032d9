//! Values of a hall: moments, names, numbers, versions, counts of boots, images.
use cases::{CaseFault, Out, Played, halves, parsed, string_of};
use hall_types::{Arch, BootCount, Image, ImageFault, LastIssued, Moment, Name, Number, Version};
use ipxe_script::{Uri, Word, WordFault};
use play_log::maybe;
use std::alloc::Global;

/// The name of a text.
pub fn name_of(rest: &str, out: &mut Out) -> Played {
    let text = string_of(out.alloc(), rest)?;
    let name = Name::new(text.as_str());
    out.push(name.as_ref().map_or("none", |name| name.text()));
    Ok(())
}

/// The order of two names, and whether they are equal.
pub fn compare(rest: &str, out: &mut Out) -> Played {
    let (one, other) = halves(rest, " ")?;
    let (one, other): (Name, Name) = (parsed(one)?, parsed(other)?);
    let equal = if one == other { "same" } else { "different" };
    out.show(format_args!("{:?} {equal}", one.cmp(&other)));
    Ok(())
}

fn print_next(next: Option<u64>, out: &mut Out) {
    match next {
        Some(next) => out.show(format_args!(" next {next}")),
        None => out.push(" next none"),
    }
}

// Prints the value of a number, and what comes after it; without a number, the first value.
fn print_value(kind: &str, number: Option<u64>, out: &mut Out) -> Option<()> {
    match kind {
        "moment" => out.show(Moment::new(number?).ok()?.get()),
        "number" => {
            let number = Number::new(number?).ok()?;
            let (order, last) = (number.cmp(&Number::FIRST), LastIssued::from(number).get());
            out.show(format_args!("{} {order:?} last {last}", number.get()));
            print_next(number.next().map(|next| next.get()), out);
        }
        "last" => {
            let last = number.map_or(Some(LastIssued::NONE), |it| LastIssued::new(it).ok())?;
            out.show(last.get());
            print_next(last.next().map(|next| next.get()), out);
        }
        "version" => {
            let version = number.map_or(Some(Version::FIRST), |it| Version::new(it).ok())?;
            out.show(format_args!("{} raised {}", version.get(), version.raised().get()));
            print_next(version.next().map(|next| next.get()), out);
        }
        _ => {
            let count = u8::try_from(number.unwrap_or(0)).ok()?;
            let boots = number.map_or(Some(BootCount::NONE), |_| BootCount::new(count).ok())?;
            out.show(boots.get());
            print_next(boots.next().map(|next| u64::from(next.get())), out);
        }
    }
    Some(())
}

/// The value of a number, `NUMBER` or `-`, by its kind: `moment`; `number` of a machine, a boot or an order, how it compares with the first, and
/// what is last issued with it; the `last` number that was issued, before all `-`; `version`, and what it is raised to, the first `-`; `boots`.
pub fn value(kind: &str, rest: &str, out: &mut Out) -> Played {
    if print_value(kind, maybe(rest)?, out).is_none() {
        out.push("none");
    }
    Ok(())
}

fn print_image(image: &Image, out: &mut Out) {
    let (kernel, initrd) = (image.kernel().text(), image.initrd().text());
    out.show(format_args!("{} {} {kernel} {initrd}", image.name(), image.arch().text()));
    for word in image.args() {
        out.show(format_args!(" {}", word.text()));
    }
    out.push("\n");
}

fn word_fault(fault: WordFault) -> CaseFault {
    match fault {
        WordFault::BadWord => CaseFault::Form,
        WordFault::Memory => CaseFault::Memory,
    }
}

/// The image live64 with these arguments.
pub(crate) fn image_of(alloc: Global, args: &str) -> Result<Result<Image, ImageFault>, CaseFault> {
    let mut words = Vec::new(alloc);
    for word in args.split_ascii_whitespace() {
        words.push(Word::new(alloc, word).map_err(word_fault)?)?;
    }
    let kernel = Uri::new(alloc, "http://files.example/live/vmlinuz").map_err(word_fault)?;
    let initrd = Uri::new(alloc, "http://files.example/live/initrd").map_err(word_fault)?;
    Ok(Image::new(parsed("live64")?, Arch::Uefi64, kernel, initrd, words))
}

/// The image live64 with these arguments: a copy of it, and itself.
pub fn image(rest: &str, out: &mut Out) -> Played {
    let args = string_of(out.alloc(), rest)?;
    match &image_of(out.alloc(), args.as_str())? {
        Ok(image) => {
            print_image(&image.copy(out.alloc())?, out);
            print_image(image, out);
        }
        Err(fault) => out.fault(*fault as u8, *fault),
    }
    Ok(())
}
