//! Values in cases.
use cases::{CaseFault, number, parsed};
use hall_types::{LastIssued, MachineUuid, Numbers, Port, RequestKey};
use hex::FromHex;
use pxe_vendor::Place;
use std::alloc::Global;
use std::str::FromStr;

/// A word, nothing where it is empty or `-`.
pub fn some(word: &str) -> Option<&str> {
    Some(word).filter(|word| !word.is_empty() && *word != "-")
}

/// The value of such a word.
pub fn maybe<T: FromStr + Drop>(word: &str) -> Result<Option<T>, CaseFault>
where
    T::Err: Drop,
{
    some(word).map(|word| parsed::<T>(word)).transpose()
}

/// The last number that was issued.
pub fn last(word: &str) -> Result<LastIssued, CaseFault> {
    LastIssued::new(number(word)?).map_err(|_| CaseFault::Form)
}

/// The last numbers of a hall, of which the last machine's is said.
pub fn numbers(machine: &str) -> Result<Numbers, CaseFault> {
    Ok(Numbers {
        machine: last(machine)?,
        boot: LastIssued::NONE,
        order: LastIssued::NONE,
    })
}

/// The port with this word.
pub fn port(word: &str) -> Result<Port, CaseFault> {
    match word {
        "discover" => Ok(Port::Discover),
        "boot" => Ok(Port::Boot),
        _ => Err(CaseFault::Form),
    }
}

/// The boot server 192.0.2.1, the next server 192.0.2.2 and the host hall.example.
pub fn place(alloc: Global) -> Result<Place, CaseFault> {
    let place = Place::new(alloc, [192, 0, 2, 1], [192, 0, 2, 2], "hall.example");
    place.map_err(|_| CaseFault::Memory)
}

// 16 octets in hexadecimal.
fn sixteen(word: &str) -> Result<[u8; 16], CaseFault> {
    <[u8; 16] as FromHex>::from_hex(word).map_err(|_| CaseFault::Form)
}

/// The machine's UUID with these 32 digits.
pub fn uuid(word: &str) -> Result<MachineUuid, CaseFault> {
    Ok(MachineUuid::from(sixteen(word)?))
}

/// The request key with these 32 digits.
pub fn key(word: &str) -> Result<RequestKey, CaseFault> {
    Ok(RequestKey::from(sixteen(word)?))
}
