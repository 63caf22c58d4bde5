//! The parts of a moment on the calendar and the clock.

ghost use Rattle.std.specs.Prelude.{◌≡◌, ◌≤◌, ◌<◌, ◌^◌, pos, ◌≤ℤ◌};
ghost use Rattle.jiff_core.specs.Calendar.{days_in_month};
ghost use Rattle.jiff_core.specs.Date.{epoch_day};

use jiff_core::civil::Date;

/// The parts of a moment in UTC: a month counts from 1, and so does a day of it.
#[derive(Clone, Copy)]
pub(crate) struct Civil {
    pub year: u64,
    pub month: u64,
    pub day: u64,
    pub hour: u64,
    pub minute: u64,
    pub second: u64,
}

/// The date so many days after 1 January 1970.
fn date_after(days: u64) -> Date
    requires { days ≤ 2932896 }
    ensures value { epoch_day result ≡ pos days }
    ensures year { pos 1970 ≤ℤ result.year }
{
    Date::from_unix_epoch_day(days as i64).unwrap()
}

impl Civil {
    ghost use Rattle.date_text.specs.Civil.{moment_of, civil_of, IsInForm};

    /// The parts of a moment.
    pub(crate) fn of(moment: u64) -> Civil
        requires { moment ≤ 253402300799 }
        ensures value { result ≡ civil_of moment }
        ensures form { IsInForm result }
        ensures day { result.day ≤ days_in_month (pos result.year) result.month }
        ensures moment { moment_of result ≡ moment }
    {
        let date = date_after(moment / 86400);
        let second = moment % 86400;
        Civil {
            year: date.year as u64,
            month: date.month as u64,
            day: date.day as u64,
            hour: second / 3600,
            minute: second / 60 % 60,
            second: second % 60,
        }
    }
}
