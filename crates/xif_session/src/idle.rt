//! The bus before the first cycle of a session.
ghost use Rattle.std.specs.Prelude.{◌≡◌};
ghost use Rattle.xif_session.specs.Facts as facts;

use xif_signals::Bus;

/// A bus on which no channel is valid: what comes before the first cycle of a session.
pub fn idle_bus() -> Bus
    ensures { result ≡ facts.idle_bus }
{
    Bus {
        issue_valid: false,
        issue_ready: false,
        issue_hartid: 0,
        issue_id: 0,
        issue_instr: 0,
        issue_accept: false,
        issue_writeback: 0,
        issue_register_read: 0,
        register_valid: false,
        register_ready: false,
        register_hartid: 0,
        register_id: 0,
        register_rs0: 0,
        register_rs1: 0,
        register_rs2: 0,
        register_rs_valid: 0,
        commit_valid: false,
        commit_hartid: 0,
        commit_id: 0,
        commit_kill: false,
        result_valid: false,
        result_ready: false,
        result_hartid: 0,
        result_id: 0,
        result_data: 0,
        result_rd: 0,
        result_we: 0,
    }
}
