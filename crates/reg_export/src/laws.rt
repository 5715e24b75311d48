// What the lines of commands tell: each law is the clause of a function that does nothing.
ghost use Rattle.std.specs.Prelude.{◌≡◌, ◌<◌, ◌^◌, ℕ, Option, Ok, true};
ghost use Rattle.serde_json.specs.Data.{object};
ghost use Rattle.reg_terms.specs.declared.command.Stamped.{Stamped};
ghost use Rattle.reg_terms.specs.declared.request.Op.TheVariants as asked;
ghost use Rattle.reg_ops.specs.Forms.{has_form, is_entity, is_moment, key_fits, takes_key};
ghost use Rattle.reg_ops.specs.Table.{kind_of};
ghost use Rattle.reg_ops.specs.declared.table.CommandKind.TheVariants as command;
ghost use Rattle.reg_json.specs.Reading.{request_in};
ghost use Rattle.reg_export.specs.Fields.{entity_text};
ghost use Rattle.reg_export.specs.Lines.{line_members};
ghost use Rattle.reg_export.specs.Listing.{made_by};
ghost use Rattle.reg_export.specs.Telling.{IsTold, line_in, request_part};
ghost use Rattle.reg_export.specs.declared.counts.Counts.{Counts};

use reg_ops::law_commands;

/// What is left of a line without its number, its place, its moment and the id that was made is
/// read as a request, which asks for the same command under the same key for the same caller. No
/// request asks for the rows of a load.
pub fn law_request_reads_back()
    ensures { (number place : ℕ) (made : Option ℕ) (s : Stamped) → IsTold made s
        → (kind_of s.command ≡ command.Load → ⊥)
        → request_in (object (request_part made (line_members number place made s)))
        ≡ Ok (record { by = entity_text s.by; key = s.key; op = asked.Command s.command }) }
{
    law_commands();
}

/// A line tells the number, the place, the moment, the caller, the key and the command, of a load
/// with its rows.
pub fn law_line_reads_back()
    ensures { (number place : ℕ) (made : Option ℕ) (s : Stamped) → number < 2 ^ 64
        → place < 2 ^ 64 → IsTold made s
        → line_in (object (line_members number place made s)) ≡ Ok (number, place, s) }
{
    law_commands();
}

/// A listed command that has its forms, as each accepted one has, is told with the id that the
/// listing gives it: no field of its op has the id's key.
pub fn law_listed_is_told()
    ensures { (n : Counts) (s : Stamped) → is_moment s.at ≡ true → is_entity s.by ≡ true
        → key_fits (takes_key s.command) s.key ≡ true → has_form s.command ≡ true
        → IsTold (made_by n s.command) s }
{}
