//! From tokens to the tree.

ghost use Rattle.std.specs.Prelude.{◌≡◌, ◌≤◌, IfOk, IfErr};
ghost use Rattle.oc_source.specs.declared.spot.Spot.{Spot};
ghost use Rattle.oc_source.specs.declared.parsed.Program.{Program};
ghost use Rattle.oc_grammar.specs.Headings.{Derives};
ghost use Rattle.oc_parser.specs.declared.faults.ParseRule.{ParseRule};
ghost use Rattle.oc_source.specs.Depth.{depth};
ghost use Rattle.oc_parser.specs.Load.{IsLight};
ghost use Rattle.oc_parser.specs.Refusals.{HasNoTree, IfRefused};
ghost use Rattle.oc_parser.specs.Trees.{IsTree};

use crate::faults::{ParseFault, ParseRule};
use crate::load::first_heavy;
use crate::programs::{program, spot_from};
use oc_grammar::ParseError;
use oc_lexer::Lexed;
use oc_source::parsed::Program;
use std::alloc::Global;

/// The tree of a source.
pub fn parse(alloc: Global, lexed: &Lexed) -> Result<Program, ParseFault>
    // The tokens spell the tree, and it ends where the source does.
    ensures tree { IfOk result (λ program. IsTree lexed.now program) }
    // There is no other tree, no load is too large, and no rule refuses the tokens.
    ensures only { IfOk result (λ program. (other : Program) → IsTree lexed.now other → other ≡ program) }
    ensures light { IfOk result (λ program. IsLight lexed.now.tokens) }
    // No node of the tree lies under 1,000 others or more.
    ensures shallow { IfOk result (λ program. depth program ≤ 1000) }
    ensures accepted { IfOk result (λ program. (rule : ParseRule) (spot : Spot) → HasNoTree lexed.now rule spot → ⊥) }

    // The rule and the spot are those that refuse the tokens.
    ensures refused { IfErr result (λ fault. IfRefused fault (λ rule spot. HasNoTree lexed.now rule spot)) }
    // No other rule or spot refuses them, and they spell no tree without a load that is too large.
    ensures only_refusal { IfErr result (λ fault. IfRefused fault (λ rule spot. (other : ParseRule) (at : Spot) → HasNoTree lexed.now other at → (other ≡ rule) × (at ≡ spot))) }
    ensures none { IfErr result (λ fault. IfRefused fault (λ rule spot. (program : Program) → Derives program lexed.now.tokens → IsLight lexed.now.tokens → ⊥)) }
{
    let tokens = lexed.tokens.as_slice();
    if let Some(spot) = first_heavy(alloc, tokens)? {
        return Err(ParseFault::Refused {
            rule: ParseRule::G2,
            spot,
        });
    }
    match program(alloc, tokens, lexed.end) {
        Ok(program) => Ok(program),
        Err(ParseError::Unexpected(rest)) => Err(ParseFault::Refused {
            rule: ParseRule::G1,
            spot: spot_from(rest, lexed.end),
        }),
        Err(ParseError::NoMemory) => Err(ParseFault::NoMemory),
    }
}
