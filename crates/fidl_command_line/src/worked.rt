//! Worked facts: names of one path and of two, and arguments of `migrate`.
ghost use Rattle.std.specs.Prelude.{◌≡◌, List, Some, true, false, codes};
ghost use Rattle.clap.specs.Words.{Row, first_of};
ghost use Rattle.fidl_command_line.specs.Arguments.{IsMigrate, IsNoMigrate, is_one_path};
ghost use Rattle.fidl_command_line.specs.Complaints.{complaint_of};
ghost use Rattle.fidl_command_line.specs.declared.arguments.MigrateArguments.{MigrateArguments};
ghost use Rattle.fidl_command_line.specs.declared.unread.Unread.TheVariants as unread;

/// Empty steps and `.` make no other path, and `..` does.
pub fn paths_of_names()
    ensures same { is_one_path (codes "a/b") (codes ".//a/./b") ≡ true }
    ensures other { is_one_path (codes "new.fct") (codes "old.fct") ≡ false }
    ensures up { is_one_path (codes "b/../old.fct") (codes "old.fct") ≡ false }
{}

/// OUT and TABLE are the arguments of `migrate` where their paths differ. Where they are one path,
/// there are no arguments, and one line says so.
pub fn arguments_of_migrate()
    ensures given { (rows : List Row) (given : MigrateArguments)
        → first_of (codes "out") rows ≡ Some (codes "new.fct")
        → first_of (codes "TABLE") rows ≡ Some (codes "old.fct")
        → given.out.now ≡ codes "new.fct" → given.table.now ≡ codes "old.fct"
        → IsMigrate rows given }
    ensures refused { (rows : List Row) (given : MigrateArguments)
        → first_of (codes "out") rows ≡ Some (codes "./old.fct")
        → first_of (codes "TABLE") rows ≡ Some (codes "old.fct") → ¬ IsMigrate rows given }
    ensures told { (rows : List Row) → first_of (codes "out") rows ≡ Some (codes "./old.fct")
        → first_of (codes "TABLE") rows ≡ Some (codes "old.fct")
        → IsNoMigrate rows unread.OutIsTable }
    ensures line { complaint_of unread.OutIsTable
        ≡ codes "error: --out: a file that is not the table is wanted" }
{}
