// What holds of readings: each law is the clause of a function that does nothing.
ghost use Rattle.std.specs.Prelude.{◌≡◌, ◌<◌, ℕ, List, length, Ok, Err};
ghost use Rattle.reg_terms.specs.Limits.{max_line};
ghost use Rattle.reg_terms.specs.declared.request.Request.{Request};
ghost use Rattle.reg_terms.specs.declared.refusal.Refusal.TheVariants.{TooLong};
ghost use Rattle.json.specs.Json.{Members};
ghost use Rattle.reg_json.specs.Forms.{IsFormed};
ghost use Rattle.reg_json.specs.Orders.{HoldsObject, Swapped};
ghost use Rattle.reg_json.specs.Reading.{reading_of};

use reg_ops::law_ops;

/// The key and the fields of a request that is read have their forms.
pub fn law_read_is_formed()
    ensures { (line : List ℕ) (request : Request) → reading_of line ≡ Ok request
        → IsFormed request }
{
    law_ops();
}

/// A line that is too long is refused, whatever it holds.
pub fn law_long_is_refused()
    ensures { (line : List ℕ) → max_line < length line → reading_of line ≡ Err (TooLong max_line) }
{}

/// Lines are read alike whose objects have the same members in another order. The law is said of
/// two neighbours that have changed places; any other order comes of such steps.
pub fn law_any_order_of_keys()
    ensures { (line other : List ℕ) (ms ns : Members) → HoldsObject line ms → HoldsObject other ns
        → Swapped ms ns → reading_of line ≡ reading_of other }
{}
