//! The page on each topic.
ghost use Rattle.std.specs.Prelude.{◌≡◌, map, option_map};
ghost use Rattle.studio_rules.specs.Pages.{command_text, page_text, status_text};
ghost use Rattle.studio_rules.specs.TopicPages.{text_among, topic_text};

use studio_rules::{COMMAND_PAGES, STATUS_PAGE, TOPIC_PAGES};

/// The page on a command, by its first word.
#[tactic(auto, unfolding(studio_rules::specs::Pages::command_text))]
pub fn command_page_on(topic: &str) -> Option<&'static [u8]>
    ensures { option_map (λ page. page.now) result ≡ command_text topic.now }
{
    text_among(&COMMAND_PAGES, topic)
}

#[tactic(auto, unfolding(studio_rules::specs::Pages::status_text))]
fn status_page() -> &'static [u8]
    ensures { result.now ≡ status_text }
{
    STATUS_PAGE
}

/// The first page on the topic, of pages with their topics.
fn text_among<'a>(mut pages: &[(&[u8], &'a [u8])], topic: &str) -> Option<&'a [u8]>
    ensures { option_map (λ page. page.now) result
        ≡ text_among (map (λ page. (page.0.now, page.1.now)) pages.entry.now) topic.now }
{
    while let [page, rest @ ..] = pages {
        if page.0 == topic.as_bytes() {
            return Some(page.1);
        }
        pages = rest;
    }
    None
}

#[tactic(auto, unfolding(studio_rules::specs::TopicPages::topic_text))]
fn topic_page_on(topic: &str) -> Option<&'static [u8]>
    ensures { option_map (λ page. page.now) result ≡ topic_text topic.now }
{
    text_among(&TOPIC_PAGES, topic)
}

/// The page on a topic: a command, the statuses, the format of a plant or a kind of fault.
pub fn page_on(topic: &str) -> Option<&'static [u8]>
    ensures { option_map (λ page. page.now) result ≡ page_text topic.now }
{
    if topic == "status" {
        return Some(status_page());
    }
    match command_page_on(topic) {
        Some(page) => Some(page),
        None => topic_page_on(topic),
    }
}
