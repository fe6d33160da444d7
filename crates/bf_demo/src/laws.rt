//! Laws of the demonstration. Each is the contract of a function that does nothing.

ghost use Rattle.std.specs.Prelude.{◌≡◌, ◌≤◌, ◌*◌, ◌++◌, ◌∷◌, [], ℕ, List, length, slice_index_or};
ghost use Rattle.bf_tree.specs.Answered.{IsAllAnswered};
ghost use Rattle.bf_tree.specs.declared.history.Entry.{Entry};
ghost use Rattle.bf_tree.specs.declared.reply.Reply.{Reply};
ghost use Rattle.bf_sql.specs.Database.{empty_database};
ghost use Rattle.bf_text.specs.Report.{end_text, session_text};
ghost use Rattle.bf_tree.specs.declared.history.Sweep.TheVariants.{Complete};
ghost use Rattle.bf_demo.specs.Replies.{IsReplayed, last_replies, transactions};
ghost use Rattle.bf_demo.specs.Script.{demonstration};
ghost use Rattle.bf_demo.specs.Shown.{last_lines};

/// Where each statement of the demonstration is answered and each of its transactions has committed,
/// whatever the order in which the four sessions came, the last session is told how many accounts there
/// are and the sum of their balances, and how many owners and the sum of these; and nothing else.
pub fn the_last_session_is_told()
    ensures { (n : ℕ) (transcripts : List (List Reply)) (history : List Entry) → 1 ≤ n → n ≤ 65535
        → IsReplayed (demonstration n) empty_database transcripts history
        → IsAllAnswered (demonstration n) transcripts → length history ≡ transactions n
        → slice_index_or ([] ∷ transcripts) 7 [] ≡ last_replies n }
{}

/// The five lines are the texts of these replies to the seventh session, and of the end of a report of so many
/// commits and of one migration, all of which has moved.
pub fn the_lines_tell_the_last_replies()
    ensures { (n : ℕ) → last_lines n
        ≡ session_text 7 (last_replies n) ++ end_text (transactions n) (Complete 1 (16 * n)) }
{}
