//! A law of the definitions. It is the contract of a function that does nothing.

ghost use Rattle.std.specs.Prelude.{◌≡◌, ℕ, List, Option};
ghost use Rattle.bf_tree.specs.declared.history.Entry.{Entry};
ghost use Rattle.bf_tree.specs.declared.history.Sweep.{Sweep};
ghost use Rattle.bf_tree.specs.declared.reply.Reply.{Reply};
ghost use Rattle.bf_tree.specs.declared.script.Script.{Script};
ghost use Rattle.bf_text.specs.Numbers.{IsCounted};
ghost use Rattle.bf_text.specs.Report.{report_text};
ghost use Rattle.bf_text.specs.Told.{IsTold, tables_of};

/// For a given script the bytes of a report, each of whose numbers has at most 64 bits, determine
/// its replies, its history, its audit and how far the last migration has come, but that an audit
/// of no tables reads like none. So a claim on the bytes speaks of one run.
pub fn the_bytes_of_a_report_determine_its_parts()
    ensures { (script : Script) (replies others : List (List Reply)) (history another : List Entry)
        (audit second : Option (List (List ℕ × ℕ))) (sweep last : Sweep)
        → IsTold script replies audit → IsTold script others second
        → IsCounted replies history audit sweep → IsCounted others another second last
        → report_text replies history audit sweep ≡ report_text others another second last
        → (replies ≡ others) × (history ≡ another) × (tables_of audit ≡ tables_of second)
        × (sweep ≡ last) }
{}
