// The worked examples of the rules, established from the definitions.
#![tactic(auto)]

ghost use Rattle.std.specs.Prelude.{◌≡◌};
ghost use Rattle.worked.specs.Examples.{WorkedExamples};

/// How many worked examples the rules have.
const EXAMPLES: usize = 11;

/// How many worked examples there are. Each is what the definitions of writing, reading and the binary fields give.
pub fn worked_examples() -> usize
    ensures count { result ≡ 11 }
    ensures established { WorkedExamples }
{
    EXAMPLES
}
