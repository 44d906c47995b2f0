//! Which clients and inboxes have news, and how many messages found no place in an inbox.
ghost use Rattle.std.specs.Prelude.{◌≡◌, IsSome};
ghost use Rattle.live_record.specs.TurnedAway.{count_turned_away};
ghost use Rattle.c_parts.specs.Calls.{IsRead};
ghost use Rattle.c_parts.specs.Codes.{found_code};
ghost use Rattle.fulwethi_service.specs.Served.{IsServed};
ghost use Rattle.fulwethi_service.specs.Told.{shown_news, IsNewsTold, IsNewsWritten};

use crate::service_handle::ServiceHandle;
use c_parts::{DONE, NOTHING};
use live_segment::{Live, News};

/// The kind of a client.
const CLIENT: u32 = 1;

/// The kind of a port.
const PORT: u32 = 2;

/// Who has news: the client of this number, or the port of this number at its station.
#[repr(C)]
#[derive(Drop)]
pub struct CNews {
    pub number: u64,
    pub kind: u32,
    pub station: u32,
}

/// Names a client or a port that has news.
#[unsafe(no_mangle)]
pub extern "C" fn fulwethi_raw_service_news(
    of: ServiceHandle,
    news: &mut CNews,
    out: &mut ServiceHandle,
) -> u32
    requires { IsSome of.live }
    ensures { IsServed found_code (λ before after answer. IsNewsTold before after answer × IsNewsWritten news.old news.new answer) of.live out.new.live result }
{
    let mut held = of.into_box();
    let code = write_news(next_news(&mut held), news);
    *out = ServiceHandle::of_box(held);
    code
}

fn next_news(live: &mut Live) -> Option<News>
    ensures { IsNewsTold live.old live.new result }
{
    live.news()
}

fn show_news(news: News) -> CNews
    ensures { result ≡ shown_news news }
{
    match news {
        News::Client(number) => CNews {
            number,
            kind: CLIENT,
            station: 0,
        },
        News::Port(port) => CNews {
            number: port.number,
            kind: PORT,
            station: port.station.0 as u32,
        },
    }
}

fn write_news(answer: Option<News>, news: &mut CNews) -> u32
    ensures code { result ≡ found_code answer }
    ensures written { IsNewsWritten news.old news.new answer }
{
    match answer {
        Some(named) => {
            *news = show_news(named);
            DONE
        }
        None => NOTHING,
    }
}

/// Writes how many messages found no place in an inbox.
#[unsafe(no_mangle)]
pub extern "C" fn fulwethi_raw_service_turned_away(
    of: ServiceHandle,
    count: &mut u64,
    out: &mut ServiceHandle,
) -> u32
    requires { IsSome of.live }
    ensures { IsServed (λ _. 0) (IsRead (λ live. count_turned_away live.calls) count.new) of.live out.new.live result }
{
    let held = of.into_box();
    *count = held.turned_away();
    *out = ServiceHandle::of_box(held);
    DONE
}
