// Survey prices and how they rank.
ghost use Rattle.ranking.specs.Surveys.{survey_before};
ghost use Rattle.std.proofs.Common.{rules};

use crate::rankings::Ranked;

/// A price that a contributor gave to the survey for a closing price. Prices compare first, then codes.
#[derive(Clone, Copy, Debug, PartialEq, Eq, PartialOrd, Ord)]
pub struct SurveyPrice {
    /// The price, in centavos.
    pub price: u32,
    /// The contributor's code.
    pub contributor: u16,
}

impl Ranked for SurveyPrice {
    ghost before = { survey_before };

    ghost price = { λ x. x.price };

    ghost number = { λ x. x.contributor };

    ghost irreflexive = { Prim.search rules };

    ghost transitive = { Prim.search rules };

    ghost level_price = { Prim.search rules };

    ghost level_number = { Prim.search rules };

    ghost alike = { Prim.search rules };

    fn goes_before(&self, other: &SurveyPrice) -> bool {
        self < other
    }
}
