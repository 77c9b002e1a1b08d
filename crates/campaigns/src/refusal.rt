ghost use Rattle.std.specs.Prelude.{◌≡◌};
ghost use Rattle.campaigns.specs.declared.refusal.CampaignRefusal.TheVariants.{Call};
ghost use Rattle.campaigns.specs.Refusals.{number as number_of};

use numbering::refusal::Refusal;
use std::fmt;
use thiserror::Error;

/// Why a call on a campaign is refused.
#[derive(Clone, Copy, PartialEq, Eq, Debug, Error)]
pub enum CampaignRefusal {
    /// The space or a buffer that every call on a space needs is refused.
    Call(Refusal),
    /// The values buffer has fewer entries than the largest plan has nodes.
    ValuesShort,
    /// The space has not as many plans as the one that the campaign was made from.
    OtherSpace,
    /// Every plan is drawn.
    AllDrawn,
    /// The baseline has a fault, which has this number.
    BaselineFaults(u8),
    /// The results differ, and the finds list has no entry left.
    FindsShort,
    /// The space has no plan with the number of the start.
    BadStart,
    /// The space has no plan with the number of the baseline.
    BadBaseline,
    /// The step is not 1 to the number of plans, or has a common divisor with it above 1.
    BadStep,
}

impl From<Refusal> for CampaignRefusal {
    ghost from_gives = { λ refusal why. why ≡ Call refusal };

    fn from(refusal: Refusal) -> CampaignRefusal {
        CampaignRefusal::Call(refusal)
    }
}

impl CampaignRefusal {
    /// The refusal's number. A method, as at the refusals of which some have none, so that all are asked alike.
    pub fn number(self) -> u8
        ensures { result ≡ number_of self }
    {
        match self {
            CampaignRefusal::Call(refusal) => refusal.number(),
            CampaignRefusal::ValuesShort => 26,
            CampaignRefusal::OtherSpace => 27,
            CampaignRefusal::AllDrawn => 28,
            CampaignRefusal::BaselineFaults(_) => 29,
            CampaignRefusal::FindsShort => 30,
            CampaignRefusal::BadStart => 45,
            CampaignRefusal::BadBaseline => 46,
            CampaignRefusal::BadStep => 47,
        }
    }

    /// The reason in words.
    pub fn reason(self) -> &'static str {
        match self {
            CampaignRefusal::Call(refusal) => refusal.reason(),
            CampaignRefusal::ValuesShort => "the values buffer is shorter than the largest plan",
            CampaignRefusal::OtherSpace => "the space has not as many plans as the campaign's",
            CampaignRefusal::AllDrawn => "every plan is drawn",
            CampaignRefusal::BaselineFaults(_) => "the baseline has a fault",
            CampaignRefusal::FindsShort => "results differ and the finds list is full",
            CampaignRefusal::BadStart => "no plan has the number of the start",
            CampaignRefusal::BadBaseline => "no plan has the number of the baseline",
            CampaignRefusal::BadStep => {
                "the step is not 1 to the number of plans, or shares a divisor above 1 with it"
            }
        }
    }
}

/// The reason.
impl fmt::Display for CampaignRefusal {
    fn fmt<W: fmt::Write>(&self, f: &mut fmt::Formatter<W>) -> fmt::Result {
        f.write_str(self.reason())
    }
}
