ghost use Rattle.std.specs.Prelude.{◌≡◌, ◌≢◌, ◌⊎◌, [], Some, Bool, IfSome, map, option_map, string_bytes, ℕ, List};
ghost use Rattle.std.specs.declared.option.Option.{Option};
ghost use Rattle.channel_map.specs.Reading.{map_reading, local_reading};
ghost use Rattle.channel_map.specs.declared.fault.MapFault.{MapFault};
ghost use Rattle.port_io.specs.Faults.{Rose};
ghost use Rattle.session.specs.Session.{IsServable};
ghost use Rattle.gen_command.specs.Size.{IsSize};
ghost use Rattle.askrened.specs.Form.{Invocation, Bytes, invocation_of, IfAsks, IfChecks, IfGenerates, AreRefused, AsksForOther, AsksToServe};
ghost use Rattle.askrened.specs.Load.{IsKnownGood, TellsFiles};
ghost use Rattle.askrened.specs.Run.{IsAsk, IsServed, IsChecking, IsGenerating, CheckEndsWell, IsCheckable};
ghost use Rattle.askrened.specs.Status.{IsGoodEnd};
ghost use Rattle.askrened.specs.Words.{IsPlain, spelling_of};

use crate::load::load;
use crate::status::Status;
use crate::words::{Task, WordsFault, read_words};
use askrene_state::State;
use channel_map::{ChannelMap, Local};
use check_command::check;
use flow_solver::Keeping;
use gen_command::{Size, generate};
use one_history::Journal;
use port_io::{Clock, Places, Sink, Source};
use session::ask_loop;
use std::alloc::Global;

/// Runs the command that the words after the program's name ask for. `ask` loads the map and the local file, and serves the
/// lines of the input from an empty history on, with routes over these files; `check` writes one line on the certificate of
/// the input; `gen` serves a workload in memory, and writes one line with the totals of its replies. For `serve` the status is
/// `Usage`, as for words that the form refuses. The files stay as they are.
#[tactic(auto, using(crate::proofs::Asking::refused_asks_none, crate::proofs::Asking::if_asks, crate::proofs::Asking::if_checks, crate::proofs::Asking::asks_checks, crate::proofs::Asking::checks_asks, crate::proofs::Asking::if_asks_all, crate::proofs::Asking::if_checks_all, crate::proofs::Asking::if_generates, crate::proofs::Asking::asks_generates, crate::proofs::Asking::checks_generates, crate::proofs::Asking::generates_asks, crate::proofs::Asking::generates_checks, crate::proofs::Asking::if_generates_all, crate::proofs::Asking::serves_asks, crate::proofs::Asking::serves_checks, crate::proofs::Asking::serves_generates, crate::proofs::Asking::serves_asked, crate::proofs::Ends::no_memory_is_ask, crate::proofs::Spelled::plain_is_taken, crate::proofs::Spelled::plain_other_is_not_to_serve))]
pub fn run<P: Places, I: Source, O: Sink, C: Clock>(
    alloc: Global,
    words: &[String],
    places: &mut P,
    input: &mut I,
    output: &mut O,
    clock: &mut C,
) -> Status
    ensures usage { result ≡ Status.Usage → AreRefused (map string_bytes words.now) ⊎ AsksToServe (invocation_of (map string_bytes words.now)) }
    ensures refused { AreRefused (map string_bytes words.now) → (result ≡ Status.Usage) ⊎ (result ≡ Status.NoMemory) }
    ensures to_serve { AsksToServe (invocation_of (map string_bytes words.now)) → (result ≡ Status.Usage) ⊎ (result ≡ Status.NoMemory) }
    ensures refused_leaves { AreRefused (map string_bytes words.now) ⊎ AsksToServe (invocation_of (map string_bytes words.now))
        → (places.new ≡ places.old) × (input.new ≡ input.old) × (output.new ≡ output.old) × (clock.new ≡ clock.old) }
    ensures spelled { (wanted : Invocation) → IsPlain wanted → AsksForOther (Some wanted) → map string_bytes words.now ≡ spelling_of wanted
        → result ≢ Status.Usage }
    ensures never_bound { (result ≢ Status.BindFault) × ((worker : ℕ) → result ≢ Status.AcceptFault worker) }
    ensures session { IfAsks (invocation_of (map string_bytes words.now)) (λ map_name local_name. IsAsk (P.file places.old) map_name local_name result (record {
      input = I.left input.old;
      rest = I.left input.new;
      output = O.written output.old;
      written = O.written output.new;
      clock = C.moments clock.old;
      ticked = C.moments clock.new;
    })) }
    ensures loaded { IfAsks (invocation_of (map string_bytes words.now)) (λ map_name local_name.
        TellsFiles (P.file places.old) map_name local_name result) }
    ensures map_refused_leaves { (local : Bool) (fault : MapFault) → result ≡ Status.MapRefused local fault
        → (input.new ≡ input.old) × (output.new ≡ output.old) × (clock.new ≡ clock.old) }
    ensures complete { IfAsks (invocation_of (map string_bytes words.now)) (λ map_name local_name.
        IsKnownGood map_reading (P.file places.old) map_name
        → IsKnownGood local_reading (P.file places.old) local_name
        → IfSome (I.left input.old) (λ bytes. IsServable bytes
        → (Rose (P.place_faults places.old) (P.place_faults places.new) → ⊥)
        → (Rose (I.read_faults input.old) (I.read_faults input.new) → ⊥)
        → (Rose (O.write_faults output.old) (O.write_faults output.new) → ⊥) → IsGoodEnd result)) }
    ensures check { IfChecks (invocation_of (map string_bytes words.now)) (IsChecking result (record {
      input = I.left input.old;
      rest = I.left input.new;
      output = O.written output.old;
      written = O.written output.new;
      clock = C.moments clock.old;
      ticked = C.moments clock.new;
    })) }
    ensures check_complete { IfChecks (invocation_of (map string_bytes words.now))
        (IfSome (I.left input.old) (λ bytes. IsCheckable bytes
        → (Rose (I.read_faults input.old) (I.read_faults input.new) → ⊥)
        → (Rose (O.write_faults output.old) (O.write_faults output.new) → ⊥) → CheckEndsWell result)) }
    ensures check_leaves { IfChecks (invocation_of (map string_bytes words.now)) ((places.new ≡ places.old) × (clock.new ≡ clock.old)) }
    ensures gen_summary { IfGenerates (invocation_of (map string_bytes words.now)) (IsGenerating result (record {
      input = I.left input.old;
      rest = I.left input.new;
      output = O.written output.old;
      written = O.written output.new;
      clock = C.moments clock.old;
      ticked = C.moments clock.new;
    })) }
    ensures gen_complete { IfGenerates (invocation_of (map string_bytes words.now)) (λ size.
        (Rose (O.write_faults output.old) (O.write_faults output.new) → ⊥) → IsGoodEnd result) }
    ensures gen_leaves { IfGenerates (invocation_of (map string_bytes words.now)) (λ size.
        (places.new ≡ places.old) × (input.new ≡ input.old)) }
    ensures read_fault { result ≡ Status.ReadFault → Rose (I.read_faults input.old) (I.read_faults input.new)
        ⊎ Rose (P.place_faults places.old) (P.place_faults places.new) }
    ensures write_fault { result ≡ Status.WriteFault
        → Rose (O.write_faults output.old) (O.write_faults output.new) }
    ensures files { (name : Bytes) → P.file places.new name ≡ P.file places.old name }
{
    match read_words(alloc, words) {
        Err(WordsFault::Refused) => Status::Usage,
        Err(WordsFault::NoMemory) => Status::NoMemory,
        Ok(Task::Ask { map, local }) => ask(alloc, map, local, places, input, output, clock),
        Ok(Task::Check) => check_input(alloc, input, output),
        Ok(Task::Gen { size }) => serve_workload(alloc, size, output, clock),
        Ok(Task::Serve { .. }) => Status::Usage,
    }
}

// Loads the files, and then serves the lines of the input.
#[tactic(auto, using(crate::proofs::Ends::load_fault_is_ask, crate::proofs::Ends::load_fault_ends_well, crate::proofs::Ends::served_is_ask, crate::proofs::Ends::served_tells, crate::proofs::Ends::served_ends_well))]
fn ask<P: Places, I: Source, O: Sink, C: Clock>(
    alloc: Global,
    map: Option<&str>,
    local: Option<&str>,
    places: &mut P,
    input: &mut I,
    output: &mut O,
    clock: &mut C,
) -> Status
    ensures other { result ≢ Status.Usage }
    ensures session { IsAsk (P.file places.old)
        (option_map (λ name. name.now) map.entry) (option_map (λ name. name.now) local.entry) result (record {
          input = I.left input.old;
          rest = I.left input.new;
          output = O.written output.old;
          written = O.written output.new;
          clock = C.moments clock.old;
          ticked = C.moments clock.new;
        }) }
    ensures loaded { TellsFiles (P.file places.old)
        (option_map (λ name. name.now) map.entry) (option_map (λ name. name.now) local.entry) result }
    ensures map_refused_leaves { (local : Bool) (fault : MapFault) → result ≡ Status.MapRefused local fault
        → (input.new ≡ input.old) × (output.new ≡ output.old) × (clock.new ≡ clock.old) }
    ensures complete { IsKnownGood map_reading (P.file places.old) (option_map (λ name. name.now) map.entry)
        → IsKnownGood local_reading (P.file places.old) (option_map (λ name. name.now) local.entry)
        → IfSome (I.left input.old) (λ bytes. IsServable bytes
        → (Rose (P.place_faults places.old) (P.place_faults places.new) → ⊥)
        → (Rose (I.read_faults input.old) (I.read_faults input.new) → ⊥)
        → (Rose (O.write_faults output.old) (O.write_faults output.new) → ⊥) → IsGoodEnd result) }
    ensures read_fault { result ≡ Status.ReadFault → Rose (I.read_faults input.old) (I.read_faults input.new)
        ⊎ Rose (P.place_faults places.old) (P.place_faults places.new) }
    ensures write_fault { result ≡ Status.WriteFault → Rose (O.write_faults output.old) (O.write_faults output.new) }
    ensures files { (name : Bytes) → P.file places.new name ≡ P.file places.old name }
{
    match load(alloc, places, map, local) {
        Ok((map, local)) => serve(alloc, &map, &local, input, output, clock),
        Err(status) => status,
    }
}

// Serves the lines of the input, from an empty history on.
#[tactic(auto, using(crate::proofs::Ends::no_session, crate::proofs::Ends::no_session_ends_well))]
fn serve<I: Source, O: Sink, C: Clock>(
    alloc: Global,
    map: &ChannelMap,
    local: &Local,
    input: &mut I,
    output: &mut O,
    clock: &mut C,
) -> Status
    ensures session { IsServed map.now local.now result (record {
      input = I.left input.old;
      rest = I.left input.new;
      output = O.written output.old;
      written = O.written output.new;
      clock = C.moments clock.old;
      ticked = C.moments clock.new;
    }) }
    ensures complete { IfSome (I.left input.old) (λ bytes. IsServable bytes
        → (Rose (I.read_faults input.old) (I.read_faults input.new) → ⊥)
        → (Rose (O.write_faults output.old) (O.write_faults output.new) → ⊥) → IsGoodEnd result) }
    ensures read_fault { result ≡ Status.ReadFault → Rose (I.read_faults input.old) (I.read_faults input.new) }
    ensures write_fault { result ≡ Status.WriteFault → Rose (O.write_faults output.old) (O.write_faults output.new) }
{
    let Ok(mut journal) = Journal::<State>::open(alloc) else {
        return Status::NoMemory;
    };
    serve_over(alloc, &mut journal, map, local, input, output, clock)
}

// Serves the lines of the input over an empty journal.
#[tactic(auto, using(crate::proofs::Ends::ask_ends_well))]
fn serve_over<I: Source, O: Sink, C: Clock>(
    alloc: Global,
    journal: &mut Journal<State>,
    map: &ChannelMap,
    local: &Local,
    input: &mut I,
    output: &mut O,
    clock: &mut C,
) -> Status
    requires { journal.old ≡ [] }
    ensures session { IsServed map.now local.now result (record {
      input = I.left input.old;
      rest = I.left input.new;
      output = O.written output.old;
      written = O.written output.new;
      clock = C.moments clock.old;
      ticked = C.moments clock.new;
    }) }
    ensures complete { IfSome (I.left input.old) (λ bytes. IsServable bytes
        → (Rose (I.read_faults input.old) (I.read_faults input.new) → ⊥)
        → (Rose (O.write_faults output.old) (O.write_faults output.new) → ⊥) → IsGoodEnd result) }
    ensures read_fault { result ≡ Status.ReadFault → Rose (I.read_faults input.old) (I.read_faults input.new) }
    ensures write_fault { result ≡ Status.WriteFault → Rose (O.write_faults output.old) (O.write_faults output.new) }
{
    let end = ask_loop(alloc, journal, map, local, input, output, clock, &Keeping);
    Status::from(end)
}

// Checks the certificate of the input.
#[tactic(auto, using(crate::proofs::Ends::check_ends_well, crate::proofs::Ends::check_is_no_usage, crate::proofs::Ends::check_is_never_bound, crate::proofs::Ends::check_loads_nothing))]
fn check_input<I: Source, O: Sink>(alloc: Global, input: &mut I, output: &mut O) -> Status
    ensures other { result ≢ Status.Usage }
    ensures never_bound { (result ≢ Status.BindFault) × ((worker : ℕ) → result ≢ Status.AcceptFault worker) }
    ensures not_refused { (local : Bool) (fault : MapFault) → result ≢ Status.MapRefused local fault }
    ensures check { (clock ticked : Option (List ℕ)) → IsChecking result (record {
      input = I.left input.old;
      rest = I.left input.new;
      output = O.written output.old;
      written = O.written output.new;
      clock = clock;
      ticked = ticked;
    }) }
    ensures complete { IfSome (I.left input.old) (λ bytes. IsCheckable bytes
        → (Rose (I.read_faults input.old) (I.read_faults input.new) → ⊥)
        → (Rose (O.write_faults output.old) (O.write_faults output.new) → ⊥) → CheckEndsWell result) }
    ensures read_fault { result ≡ Status.ReadFault → Rose (I.read_faults input.old) (I.read_faults input.new) }
    ensures write_fault { result ≡ Status.WriteFault → Rose (O.write_faults output.old) (O.write_faults output.new) }
{
    Status::from(check(alloc, input, output))
}

// Serves a workload in memory, and writes the totals of its replies. Neither the input nor a file is read.
#[tactic(auto, using(crate::proofs::Ends::gen_is_generating, crate::proofs::Ends::gen_ends_well, crate::proofs::Ends::gen_is_no_usage, crate::proofs::Ends::gen_is_never_bound, crate::proofs::Ends::gen_reads_nothing, crate::proofs::Ends::gen_loads_nothing))]
fn serve_workload<O: Sink, C: Clock>(
    alloc: Global,
    size: Size,
    output: &mut O,
    clock: &mut C,
) -> Status
    requires { IsSize size }
    ensures other { result ≢ Status.Usage }
    ensures never_bound { (result ≢ Status.BindFault) × ((worker : ℕ) → result ≢ Status.AcceptFault worker) }
    ensures nothing_read { result ≢ Status.ReadFault }
    ensures not_refused { (local : Bool) (fault : MapFault) → result ≢ Status.MapRefused local fault }
    ensures summary { (input rest : Option (List ℕ)) → IsGenerating result (record {
      input = input;
      rest = rest;
      output = O.written output.old;
      written = O.written output.new;
      clock = C.moments clock.old;
      ticked = C.moments clock.new;
    }) size }
    ensures complete { (Rose (O.write_faults output.old) (O.write_faults output.new) → ⊥) → IsGoodEnd result }
    ensures write_fault { result ≡ Status.WriteFault → Rose (O.write_faults output.old) (O.write_faults output.new) }
{
    Status::from(generate(alloc, size, output, clock))
}
