// What holds of the table of ops: each law is the clause of a function that does nothing.
ghost use Rattle.std.specs.Prelude.{◌≡◌, ℕ, List, Some, codes, map};
ghost use Rattle.reg_terms.specs.declared.command.Command.{Command};
ghost use Rattle.reg_ops.specs.declared.table.CommandKind.{CommandKind};
ghost use Rattle.reg_ops.specs.declared.table.CommandKind.TheVariants as command;
ghost use Rattle.reg_ops.specs.declared.table.OpKind.{OpKind};
ghost use Rattle.reg_ops.specs.declared.table.OpKind.TheVariants as op;
ghost use Rattle.reg_ops.specs.declared.field.Field.{Field};
ghost use Rattle.reg_ops.specs.Parts.{field_kind};
ghost use Rattle.reg_ops.specs.Table.{command_row, row_of, field_kinds, kind_named};
ghost use Rattle.reg_ops.specs.Table.{IsMadeCommand, IsMade, IsApart};

/// Fields of the kinds that a command's row says make a command of these fields; and the fields of
/// each command are of its row's kinds, at most six, and make it again, and its code leads to its
/// row.
#[tactic(auto, using(crate::proofs::Makes::command_made))]
pub fn law_commands()
    ensures made { (k : CommandKind) (fields : List Field)
        → map field_kind fields ≡ field_kinds (command_row k).op → IsMadeCommand k fields }
    ensures apart { (c : Command) → IsApart c }
{}

/// Fields of the kinds that an op's row says make a command, query or load of these fields.
#[tactic(auto, using(crate::proofs::Makes::op_made))]
pub fn law_ops()
    ensures { (k : OpKind) (fields : List Field) → map field_kind fields ≡ field_kinds (row_of k)
        → IsMade k fields }
{}

/// The word `load` names a load with its table, and no word names the command of a load.
pub fn law_load_word()
    ensures own { kind_named (codes "load") ≡ Some op.Load }
    ensures never { (word : List ℕ) → kind_named word ≡ Some (op.Command command.Load) → ⊥ }
{}
