//! The parameters of the interface, and the key of an instruction.
ghost use Rattle.std.specs.Prelude.{◌≡◌, ◌↔◌, IsOk};
ghost use Rattle.xif_base.specs.Checks.{first_failing};
ghost use Rattle.xif_base.specs.Params.{IsInRange, ranges, within, is_port_width, has_hartids};

/// The parameters of the interface (CV-X-IF 1.0.0, section "Parameters"), with the ranges of this
/// profile, which `check` tests.
#[derive(Clone, Copy, Debug, PartialEq, Eq)]
pub struct Params {
    /// X_NUM_RS: the number of lanes that carry source registers, 2 to 3.
    pub num_rs: u8,
    /// X_ID_WIDTH: the width of an instruction's id in bits, 3 to 12.
    pub id_width: u8,
    /// X_RFR_WIDTH: the width of a lane in bits, 32 or 64, and 64 if `dual_read` is above 0.
    pub rfr_width: u8,
    /// X_RFW_WIDTH: the width of a result in bits, 32 or 64, and 64 if `dual_write` is true.
    pub rfw_width: u8,
    /// X_NUM_HARTS: the number of harts, 1 to 4.
    pub num_harts: u8,
    /// X_HARTID_WIDTH: the width of a hart's id in bits, 1 to 8, and enough for `num_harts` ids.
    pub hartid_width: u8,
    /// X_DUALREAD: the number of lanes, from lane 0 on, that can carry a register pair, 0 to
    /// `num_rs`.
    pub dual_read: u8,
    /// X_DUALWRITE: whether a result can be a register pair.
    pub dual_write: bool,
    /// X_ISSUE_REGISTER_SPLIT: whether source registers are sent on their own channel, which can be
    /// later than the issue of the instruction.
    pub split: bool,
    /// The profile of the rules, 1 or 2. In profile 2 kills come in issue order, and a refused
    /// instruction keeps its id until it is decided.
    pub profile: u8,
}

/// A parameter that is out of its range.
#[derive(Clone, Copy, Debug, PartialEq, Eq)]
pub enum ParamFault {
    /// X_NUM_RS.
    NumRs,
    /// X_ID_WIDTH.
    IdWidth,
    /// X_RFR_WIDTH, or it is 32 though pairs are read.
    RfrWidth,
    /// X_RFW_WIDTH, or it is 32 though pairs are written.
    RfwWidth,
    /// X_NUM_HARTS.
    NumHarts,
    /// X_HARTID_WIDTH, or it is too narrow for an id for each hart.
    HartidWidth,
    /// X_DUALREAD.
    DualRead,
    /// The profile of the rules.
    Profile,
}

/// What distinguishes instructions in flight (CV-X-IF 1.0.0, `hartid` and `id` of the channels).
#[derive(Clone, Copy, Debug, PartialEq, Eq)]
pub struct Key {
    /// The id of the hart.
    pub hart: u8,
    /// The id of the instruction, among those of its hart.
    pub id: u16,
}

impl Params {
    /// Tests that all parameters are in their ranges. If not, the error is the first one that is
    /// out of its range, in the order of the fields.
    pub fn check(&self) -> Result<(), ParamFault>
        ensures in_range { IsOk result ↔ IsInRange self.now }
        ensures first { result ≡ first_failing (ranges self.now) }
    {
        if !is_within(2, 3, self.num_rs) {
            Err(ParamFault::NumRs)
        } else if !is_within(3, 12, self.id_width) {
            Err(ParamFault::IdWidth)
        } else if !is_port_width(self.dual_read > 0, self.rfr_width) {
            Err(ParamFault::RfrWidth)
        } else if !is_port_width(self.dual_write, self.rfw_width) {
            Err(ParamFault::RfwWidth)
        } else if !is_within(1, 4, self.num_harts) {
            Err(ParamFault::NumHarts)
        } else if !has_hartids(self.hartid_width, self.num_harts) {
            Err(ParamFault::HartidWidth)
        } else if self.dual_read > self.num_rs {
            Err(ParamFault::DualRead)
        } else if !is_within(1, 2, self.profile) {
            Err(ParamFault::Profile)
        } else {
            Ok(())
        }
    }
}

fn is_within(low: u8, high: u8, value: u8) -> bool
    ensures { result ≡ within low high value }
{
    (low..=high).contains(&value)
}

/// A port has 64 bits, or 32 if it carries no pairs.
fn is_port_width(pairs: bool, width: u8) -> bool
    ensures { result ≡ is_port_width pairs width }
{
    width == 64 || (!pairs && width == 32)
}

/// An id has 1 to 8 bits, which are enough for this number of harts.
fn has_hartids(width: u8, harts: u8) -> bool
    ensures { result ≡ has_hartids width harts }
{
    is_within(1, 8, width) && u32::from(harts) <= 1 << width
}
