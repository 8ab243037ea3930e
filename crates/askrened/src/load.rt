//! Loads the files that the command line names.
ghost use Rattle.std.specs.Prelude.{◌≡◌, ◌≤◌, List, ℕ, Some, None, true, false, option_map, IfOk, IfErr, IsErrOf};
ghost use Rattle.channel_map.specs.Reading.{map_reading, local_reading};
ghost use Rattle.port_io.specs.Faults.{Rose};
ghost use Rattle.askrened.specs.Load.{IsLoadedAs, IsLoadFault, Reader, TellsFiles};
ghost use Rattle.askrened.specs.OneFile.{IsTextOf, TellsFile, refusal_status};

use crate::status::Status;
use channel_map::{ChannelMap, Local, MapFault, read_local, read_map};
use port_io::{PlaceFault, Places};
use std::alloc::Global;

/// The most bytes of a file that is loaded.
pub const FILE_MAX: usize = 268_435_456;

/// Reads the map and then the local file. A file that is not named gives the empty one. Refuses with `MapRefused` if and
/// only if a file that was read has more than `FILE_MAX` bytes, with the fault `Long`, or its reading refuses it, with the
/// fault of the reading, never `NoMemory`; `local` says whether it is the local file. `ReadFault` comes only if the places'
/// count of faults rose. Out of memory may come at any time. No other status is returned.
#[tactic(auto, using(crate::proofs::Loads::map_tells, crate::proofs::Loads::local_tells, crate::proofs::Loads::loaded_later, crate::proofs::Loads::rose_early, crate::proofs::Loads::rose_late))]
pub fn load<P: Places>(
    alloc: Global,
    places: &mut P,
    map: Option<&str>,
    local: Option<&str>,
) -> Result<(ChannelMap, Local), Status>
    ensures map { IfOk result (λ loaded.
        IsLoadedAs map_reading (P.file places.old) (option_map (λ name. name.now) map.entry) loaded.0) }
    ensures local { IfOk result (λ loaded.
        IsLoadedAs local_reading (P.file places.old) (option_map (λ name. name.now) local.entry) loaded.1) }
    ensures refused { IfErr result (TellsFiles (P.file places.old)
        (option_map (λ name. name.now) map.entry) (option_map (λ name. name.now) local.entry)) }
    ensures others { IfErr result IsLoadFault }
    ensures read_fault { IsErrOf result Status.ReadFault
        → Rose (P.place_faults places.old) (P.place_faults places.new) }
    ensures counts { P.place_faults places.old ≤ P.place_faults places.new }
    ensures same { (other : List ℕ) → P.file places.new other ≡ P.file places.old other }
    ensures limit { FILE_MAX ≡ 268435456 }
{
    let map = load_map(alloc, places, map)?;
    let local = load_local(alloc, places, local)?;
    Ok((map, local))
}

#[tactic(auto, using(crate::proofs::Loads::text_loads, crate::proofs::Loads::fault_tells))]
fn load_map<P: Places>(
    alloc: Global,
    places: &mut P,
    name: Option<&str>,
) -> Result<ChannelMap, Status>
    ensures ok { IfOk result (λ map.
        IsLoadedAs map_reading (P.file places.old) (option_map (λ name. name.now) name.entry) map) }
    ensures err { IfErr result
        (TellsFile map_reading (P.file places.old) (option_map (λ name. name.now) name.entry) false) }
    ensures read_fault { IsErrOf result Status.ReadFault
        → Rose (P.place_faults places.old) (P.place_faults places.new) }
    ensures counts { P.place_faults places.old ≤ P.place_faults places.new }
    ensures same { (other : List ℕ) → P.file places.new other ≡ P.file places.old other }
{
    let Some(name) = name else {
        return Ok(ChannelMap::empty(alloc));
    };
    let text = read_file(alloc, places, name, false)?;
    match read_map(alloc, &text) {
        Ok(map) => Ok(map),
        Err(fault) => Err(refusal(false, fault)),
    }
}

#[tactic(auto, using(crate::proofs::Loads::text_loads, crate::proofs::Loads::fault_tells))]
fn load_local<P: Places>(alloc: Global, places: &mut P, name: Option<&str>) -> Result<Local, Status>
    ensures ok { IfOk result (λ local.
        IsLoadedAs local_reading (P.file places.old) (option_map (λ name. name.now) name.entry) local) }
    ensures err { IfErr result
        (TellsFile local_reading (P.file places.old) (option_map (λ name. name.now) name.entry) true) }
    ensures read_fault { IsErrOf result Status.ReadFault
        → Rose (P.place_faults places.old) (P.place_faults places.new) }
    ensures counts { P.place_faults places.old ≤ P.place_faults places.new }
    ensures same { (other : List ℕ) → P.file places.new other ≡ P.file places.old other }
{
    let Some(name) = name else {
        return Ok(Local::empty(alloc));
    };
    let text = read_file(alloc, places, name, true)?;
    match read_local(alloc, &text) {
        Ok(local) => Ok(local),
        Err(fault) => Err(refusal(true, fault)),
    }
}

// The text of a file. The flag says whether it is the local file.
#[tactic(auto, using(crate::proofs::Loads::long_tells))]
fn read_file<P: Places>(
    alloc: Global,
    places: &mut P,
    name: &str,
    local: bool,
) -> Result<Vec<u8>, Status>
    ensures ok { IfOk result (λ text. IsTextOf (P.file places.old name.now) text.items) }
    ensures err { (reader : Reader)
        → IfErr result (TellsFile reader (P.file places.old) (Some name.now) local) }
    ensures read_fault { IsErrOf result Status.ReadFault
        → Rose (P.place_faults places.old) (P.place_faults places.new) }
    ensures counts { P.place_faults places.old ≤ P.place_faults places.new }
    ensures same { (other : List ℕ) → P.file places.new other ≡ P.file places.old other }
{
    match places.read_whole(alloc, name, FILE_MAX) {
        Ok(text) => Ok(text),
        Err(PlaceFault::Failed) => Err(Status::ReadFault),
        Err(PlaceFault::Long) => Err(Status::MapRefused {
            local,
            fault: MapFault::Long,
        }),
        Err(PlaceFault::NoMemory) => Err(Status::NoMemory),
    }
}

// The status for a file whose reading refuses it.
fn refusal(local: bool, fault: MapFault) -> Status
    ensures { result ≡ refusal_status local fault }
{
    match fault {
        MapFault::NoMemory => Status::NoMemory,
        fault => Status::MapRefused { local, fault },
    }
}
