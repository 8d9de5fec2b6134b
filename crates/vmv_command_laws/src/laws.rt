ghost use Rattle.std.specs.Prelude.{◌≡◌, ℕ, Option, List};
ghost use Rattle.vmv_words.specs.Words.{Word};
ghost use Rattle.vmv_command.specs.Command.{Outputs};
ghost use Rattle.vmv_command_laws.specs.Alike.{TellsAsked, AskAlike, NameAnotherNumber};

use vmv_proof_check_laws::proofs_have_one_answer;
use vmv_proof_laws::proofs_are_unique;
use vmv_proof_read::{a_text_departs_once, a_text_is_of_one_proof};
use vmv_report_laws::{baselines_are_unique, one_thing_is_necessary, reports_are_unique};
use vmv_run::one_finding;
use vmv_sample::sample_texts_are_short;
use vmv_snapshot_laws::resolutions_are_unique;
use vmv_source::valid_texts_have_no_fault;
use vmv_source_laws::a_text_has_one_fault;
use vmv_text::one_program;
use vmv_witness_laws::{
    a_witness_fits_in_one_way, a_witness_text_has_no_fault, a_witness_text_has_one_witness,
    a_witness_text_is_at_fault_once,
};
use vmv_words::words_ask_for_one_thing;

/// Words have one output and one status over a shelf that tells the texts that they ask for.
pub fn outputs_are_one()
    ensures { (words : List Word) (told : Word → Option (List ℕ)) (printed other : List ℕ) (status end : ℕ) → TellsAsked told words → Outputs words told printed status → Outputs words told other end → (printed ≡ other) × (status ≡ end) }
{
    words_ask_for_one_thing();
    one_program();
    a_text_has_one_fault();
    valid_texts_have_no_fault();
    a_witness_text_has_one_witness();
    a_witness_text_is_at_fault_once();
    a_witness_text_has_no_fault();
    a_witness_fits_in_one_way();
    one_finding();
    resolutions_are_unique();
    one_thing_is_necessary();
    baselines_are_unique();
    reports_are_unique();
    proofs_are_unique();
    a_text_is_of_one_proof();
    a_text_departs_once();
    proofs_have_one_answer();
    sample_texts_are_short();
}

/// Words that ask for the same by other numbers of workers have the same output and the same status.
pub fn outputs_are_one_for_any_number_of_workers()
    ensures { (words others : List Word) (told : Word → Option (List ℕ)) (printed other : List ℕ) (status end : ℕ) → AskAlike words others → TellsAsked told words → Outputs words told printed status → Outputs others told other end → (printed ≡ other) × (status ≡ end) }
{
    outputs_are_one();
}

/// Words that differ in the number that they name behind `--workers` alone ask for the same by other numbers of workers.
pub fn words_that_name_another_number_ask_alike()
    ensures { (words others : List Word) → NameAnotherNumber words others → AskAlike words others }
{}
