//! The word of each kind of warning, and the sentence that says what it means.
ghost use Rattle.std.specs.Prelude.{◌≡◌};
ghost use Rattle.command_files.specs.report_rules.Words.{kind_word, sentence};

use command_files::Warning;

/// The word for a kind of warning.
pub(crate) fn kind_word(kind: Warning) -> &'static str
    ensures { result.now ≡ kind_word kind }
{
    match kind {
        Warning::NoNetwork => "NoNetwork",
        Warning::UnusedMaterial => "UnusedMaterial",
        Warning::NoDemand => "NoDemand",
        Warning::DefaultCapacity => "DefaultCapacity",
        Warning::Free => "Free",
        Warning::FreeRaw => "FreeRaw",
        Warning::NoLimit => "NoLimit",
        Warning::Twins => "Twins",
        Warning::FineRates => "FineRates",
        Warning::Alone => "Alone",
    }
}

/// What a kind of warning means.
pub(crate) fn sentence(kind: Warning) -> &'static str
    ensures { result.now ≡ sentence kind }
{
    match kind {
        Warning::NoNetwork => {
            "No network can have this unit: it is outside the maximal structure."
        }
        Warning::UnusedMaterial => "No unit of the maximal structure uses or makes this material.",
        Warning::NoDemand => {
            "The lower bound of this product is 0, so a network may deliver none of it."
        }
        Warning::DefaultCapacity => {
            "Its capacity is 1000000000, so bounds hardly count its fixed or investment cost."
        }
        Warning::Free => "All costs of this unit are 0.",
        Warning::FreeRaw => "The price of this raw material is 0.",
        Warning::NoLimit => {
            "What is left over of it is sold at its price, and nothing limits how much."
        }
        Warning::Twins => "An earlier unit has the same bounds, costs, inputs and outputs.",
        Warning::FineRates => {
            "A rate of this unit has more than three decimals, so numbers may overflow."
        }
        Warning::Alone => {
            "At most one of its units is in the maximal structure, so it excludes nothing."
        }
    }
}
