//! What the grammar says of words as users write them. These functions do nothing: their contracts are
//! the laws.

ghost use Rattle.std.specs.Prelude.{◌≡◌, ◌↔◌, ◌≤◌, ◌<◌, ◌^◌, ℕ, List, [], ◌∷◌, Some, None, codes, decimal};
ghost use Rattle.okws_base.specs.declared.limit.TheConstants.{MOST_CONNECTIONS};
ghost use Rattle.command_line.specs.Numbers.{number_in};
ghost use Rattle.command_line.specs.Asked.{asked, Checks, Plays, Drills, Serves, Versions};
ghost use Rattle.command_line.specs.Plain.{IsPlainWord};
ghost use Rattle.command_line.specs.declared.command.TheConstants.{MOST_EVENTS, MOST_PATIENCE, USUAL_DOORS};
ghost use Rattle.command_line.specs.declared.command.Connections.TheVariants.{Count, Always};

/// A word is a number within its bounds exactly where it is that number's decimal digits.
pub fn numbers_are_written()
    ensures { (least most n : ℕ) (word : List ℕ) → most < 2 ^ 64 → number_in least most word ≡ Some n ↔ (word ≡ decimal n) × (least ≤ n) × (n ≤ most) }
{}

/// Words that don't begin with a hyphen are the command that they look like.
pub fn plain_words_are_read()
    ensures check { (config : List ℕ) → IsPlainWord config → asked (codes "check" ∷ config ∷ []) ≡ Some (Checks config) }
    ensures play { (config script : List ℕ) → IsPlainWord config → IsPlainWord script → asked (codes "play" ∷ config ∷ script ∷ []) ≡ Some (Plays config script) }
    ensures drill { (seed events : ℕ) → seed < 2 ^ 64 → events ≤ MOST_EVENTS → asked (codes "drill" ∷ decimal seed ∷ decimal events ∷ []) ≡ Some (Drills seed events) }
    ensures serve { (config : List ℕ) (port connections : ℕ) → IsPlainWord config → 1 ≤ port → port ≤ 65535 → connections ≤ MOST_CONNECTIONS →
        asked (codes "serve" ∷ config ∷ codes "--port" ∷ decimal port ∷ codes "--serve" ∷ decimal connections ∷ []) ≡
        Some (Serves (record { config = config; port = port; doors = USUAL_DOORS; connections = Count connections; patience = None; store = None; log = None; audit = None })) }
    ensures always { (config : List ℕ) (port seconds : ℕ) → IsPlainWord config → 1 ≤ port → port ≤ 65535 → 1 ≤ seconds → seconds ≤ MOST_PATIENCE →
        asked (codes "serve" ∷ config ∷ codes "--port" ∷ decimal port ∷ codes "--always" ∷ codes "--patience" ∷ decimal seconds ∷ []) ≡
        Some (Serves (record { config = config; port = port; doors = USUAL_DOORS; connections = Always; patience = Some seconds; store = None; log = None; audit = None })) }
    ensures version { asked (codes "--version" ∷ []) ≡ Some Versions }
{}
