//! Laws of the definitions.
ghost use Rattle.std.specs.Prelude.{◌≡◌, ℕ, List, Option, Some, IsUtf8, length};
ghost use Rattle.std.specs.Io.KnownBytes.{Appends};
ghost use Rattle.bson_model.specs.declared.options.KeyOrder.{KeyOrder};
ghost use Rattle.bson_model.specs.declared.options.Options.{Options};
ghost use Rattle.bson_scalar.specs.declared.form.Form.{Form};
ghost use Rattle.bson_convert.specs.declared.error.Error.{Error};
ghost use Rattle.bson_convert.specs.declared.mode.Mode.{Mode};
ghost use Rattle.bson_convert.specs.InOrder.{ConvertsBy, IsFixedPointBy};
ghost use Rattle.bson_run.specs.Indent.{ConvertsIndented, IsFixedPointIndented};
ghost use Rattle.bson_run.specs.Lines.{lines, RunHasDoneAllLines, RunFailsAtLine, HaveLineOutcomes, LineOutcomes, WritesText};
ghost use Rattle.bson_run.specs.Outcomes.{AreSameDiagnostics, IsErrorOfText, IsSameFault, StopsInsideInput};
ghost use Rattle.bson_run.specs.declared.task.OnRefusal.{OnRefusal};
ghost use Rattle.bson_run.specs.declared.task.Task.{Task};

use bson_bytes::laws::{first_cause_is_one, what_fits_has_no_cause};
use bson_tokens::laws::one_duplicate_path;

/// Proves that the same lines have one output, and that as many of them are rejected, for the same
/// faults.
pub fn one_outcome()
    ensures { (options : Options) (task : Task) (on_refusal : OnRefusal) (lines : List (List ℕ))
        (output other_output first_diagnostics second_diagnostics : List ℕ) (refused other_refused : ℕ)
        → LineOutcomes options task on_refusal lines output first_diagnostics refused
        → LineOutcomes options task on_refusal lines other_output second_diagnostics other_refused
        → (output ≡ other_output) × AreSameDiagnostics task first_diagnostics second_diagnostics
        × (refused ≡ other_refused) }
{
    one_duplicate_path();
    what_fits_has_no_cause();
    first_cause_is_one();
}

/// Proves that a run over the same lines stops inside them at one line, for one fault. It has one
/// output before that line, and the lines are not all done.
pub fn one_stop()
    ensures stop { (options : Options) (task : Task) (on_refusal : OnRefusal) (lines : List (List ℕ))
        (output other_output first_diagnostics second_diagnostics : List ℕ) (fault other_fault : Error)
        (line_number other_line_number : ℕ)
        → StopsInsideInput options task on_refusal lines output first_diagnostics fault line_number
        → StopsInsideInput options task on_refusal lines other_output second_diagnostics other_fault other_line_number
        → (output ≡ other_output) × AreSameDiagnostics task first_diagnostics second_diagnostics
        × IsSameFault fault other_fault × (line_number ≡ other_line_number) }
    ensures either { (options : Options) (task : Task) (on_refusal : OnRefusal) (lines : List (List ℕ))
        (output other_output first_diagnostics second_diagnostics : List ℕ) (fault : Error) (line_number refused : ℕ)
        → LineOutcomes options task on_refusal lines other_output second_diagnostics refused
        → StopsInsideInput options task on_refusal lines output first_diagnostics fault line_number → ⊥ }
{
    one_duplicate_path();
    what_fits_has_no_cause();
    first_cause_is_one();
}

/// Proves that an output in a form is accepted again: its own output is the same bytes, unless it
/// nests deeper than texts may. An indented text is indented again as it is.
pub fn outputs_are_kept()
    ensures plain { (key_order : KeyOrder) (options : Options) (mode : Mode) (bytes output : List ℕ)
        → ConvertsBy key_order options mode bytes output → IsUtf8 output
        → IsFixedPointBy key_order options mode output }
    ensures indented { (key_order : KeyOrder) (options : Options) (form : Form) (spaces : ℕ) (bytes output : List ℕ)
        → ConvertsIndented key_order options form spaces bytes output → IsUtf8 output
        → IsFixedPointIndented key_order options form spaces output }
{}

/// Proves that a run over known bytes that is done has done all of their lines. One that stops for a
/// fault of a text stops inside them. Its output and diagnostics are those of the lines before.
pub fn runs_are_inside()
    ensures done { (options : Options) (task : Task) (on_refusal : OnRefusal) (input : List ℕ)
        (after output_before output_after diagnostics_before diagnostics_after : Option (List ℕ))
        (line_count refused : ℕ)
        → RunHasDoneAllLines options task on_refusal
        (Some input) after output_before output_after diagnostics_before diagnostics_after line_count refused
        → (line_count ≡ length (lines input)) × ((output : List ℕ) × (diagnostics : List ℕ)
        × HaveLineOutcomes options task on_refusal (lines input) output diagnostics refused
        × Appends output_before output_after output × Appends diagnostics_before diagnostics_after diagnostics) }
    ensures stops { (options : Options) (task : Task) (on_refusal : OnRefusal) (input : List ℕ)
        (after output_before output_after diagnostics_before diagnostics_after : Option (List ℕ)) (fault : Error)
        (line_number : ℕ) (rejected_text : List ℕ)
        → RunFailsAtLine options fault task on_refusal
        (Some input) after output_before output_after diagnostics_before diagnostics_after line_number rejected_text
        → IsErrorOfText fault
        → (output : List ℕ) × (diagnostics : List ℕ)
        × StopsInsideInput options task on_refusal (lines input) output diagnostics fault line_number
        × (WritesText task.output → IsUtf8 output) × IsUtf8 diagnostics
        × Appends output_before output_after output × Appends diagnostics_before diagnostics_after diagnostics }
{}
