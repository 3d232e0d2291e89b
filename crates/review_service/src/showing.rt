//! What is only looked at.
ghost use Rattle.std.specs.Prelude.{codes, OnOk};
ghost use Rattle.http_server.specs.Response.{IsBlank, IsResponse};
ghost use Rattle.review_service.specs.Fields.{IsHtmlPage, typed_fields};
ghost use Rattle.review_visits.specs.Visit.{is_on_desk};
ghost use Rattle.review_service.specs.Showing.{has_client, IsDrawingWhere, IsPageWhere, ShowsView, state_text};

use crate::pages::{Head, Why, begin_page, end_page, say_drawing, say_why};
use crate::reporting::show_report;
use crate::texts::{give_drawing_style, give_file, say_text};
use byte_streams::Source;
use http::StatusCode;
use http_server::Response;
use page_tree::NoMemory;
use replay_folder::Replayed;
use review_lists::{add_client, add_overview, add_search, totals_of};
use review_pieces::files::{PAGE_CSS, REVIEW_CSS, REVIEW_JS};
use review_requests::{Side, View};
use review_visits::{add_drawing, add_told, add_visit};
use site_file::SiteFile;
use std::alloc::Global;
use upload_reader::Client;

/// What a view is made of.
#[derive(Drop)]
pub(crate) struct Shown<'a, R: Source> {
    pub(crate) alloc: Global,
    pub(crate) site: &'a SiteFile,
    pub(crate) replayed: &'a Replayed<R>,
    pub(crate) is_closed: bool,
    pub(crate) token: &'a str,
    /// The visit whose decision is told on its client's page.
    pub(crate) told: Option<u64>,
}

impl<R: Source> Shown<'_, R> {
    /// Answers with that view.
    pub(crate) fn show(&self, view: &View, response: &mut Response) -> Result<(), NoMemory>
        requires { IsBlank response.old }
        ensures { OnOk result (ShowsView self.now.replayed.now view.now response.new) }
    {
        match view {
            View::Overview { from, clients } => self.show_overview(*from, *clients, response),
            View::Visits { client, from } => self.show_client(client, *from, response),
            View::Visit {
                client,
                visit,
                told,
            } => self.show_visit(client, *visit, *told, response),
            View::Drawing {
                client,
                visit,
                side,
            } => self.show_drawing(client, *visit, *side, response),
            View::Search { text, from } => self.show_search(text.as_str(), *from, response),
            View::Report => show_report(self.alloc, self.replayed, response),
            View::State => self.show_state(response),
            View::PageStyle => give_file("text/css; charset=utf-8", REVIEW_CSS, response),
            View::DrawingStyle => give_drawing_style(PAGE_CSS, response),
            View::Script => give_file("text/javascript; charset=utf-8", REVIEW_JS, response),
        }
    }

    fn begin(&self, title: &str) -> Result<Vec<u8>, NoMemory> {
        let head = Head {
            title,
            query: "",
            is_overview: false,
        };
        begin_page(self.alloc, &self.replayed.repaired, head)
    }

    fn show_overview(
        &self,
        from: u64,
        clients: u64,
        response: &mut Response,
    ) -> Result<(), NoMemory>
        requires { IsBlank response.old }
        ensures { OnOk result (IsHtmlPage 200 response.new) }
    {
        let repaired = &self.replayed.repaired;
        let head = Head {
            title: "Overview",
            query: "",
            is_overview: true,
        };
        let mut page = begin_page(self.alloc, repaired, head)?;
        add_overview(
            self.alloc,
            &mut page,
            &self.replayed.told,
            &self.replayed.gathered,
            repaired,
            self.is_closed,
            from,
            clients,
        )?;
        end_page(page, StatusCode::OK, response)
    }

    fn show_client(
        &self,
        client: &Client,
        from: u64,
        response: &mut Response,
    ) -> Result<(), NoMemory>
        requires { IsBlank response.old }
        ensures { OnOk result (IsPageWhere (has_client self.now.replayed.now.repaired client.now) response.new) }
    {
        let repaired = &self.replayed.repaired;
        let mut page = self.begin(client.text())?;
        self.add_told(&mut page, client, self.told)?;
        let logs = &self.replayed.gathered;
        if add_client(self.alloc, &mut page, logs, repaired, client, from)? {
            end_page(page, StatusCode::OK, response)
        } else {
            self.say_nothing("No client of that name uploaded anything.", response)
        }
    }

    fn show_visit(
        &self,
        client: &Client,
        visit: u64,
        told: Option<u64>,
        response: &mut Response,
    ) -> Result<(), NoMemory>
        requires { IsBlank response.old }
        ensures { OnOk result (IsPageWhere (is_on_desk self.now.replayed.now client.now visit) response.new) }
    {
        let name = client.text();
        let title = format!(in self.alloc; "Visit {visit} of {name}")?;
        let mut page = self.begin(title.as_str())?;
        self.add_told(&mut page, client, told)?;
        let is_there = add_visit(
            self.alloc,
            &mut page,
            self.site,
            self.replayed,
            client,
            visit,
            self.token,
        )?;
        if is_there {
            end_page(page, StatusCode::OK, response)
        } else {
            self.say_nothing("There is no such visit.", response)
        }
    }

    fn show_drawing(
        &self,
        client: &Client,
        visit: u64,
        side: Side,
        response: &mut Response,
    ) -> Result<(), NoMemory>
        requires { IsBlank response.old }
        ensures { OnOk result (IsDrawingWhere (is_on_desk self.now.replayed.now client.now visit) response.new) }
    {
        let mut drawing = Vec::new(self.alloc);
        let is_there = add_drawing(
            self.alloc,
            &mut drawing,
            self.site,
            self.replayed,
            client,
            visit,
            side,
        )?;
        if is_there {
            say_drawing(drawing, response)
        } else {
            self.say_nothing("There is no such page.", response)
        }
    }

    fn show_search(&self, text: &str, from: u64, response: &mut Response) -> Result<(), NoMemory>
        requires { IsBlank response.old }
        ensures { OnOk result (IsHtmlPage 200 response.new) }
    {
        let repaired = &self.replayed.repaired;
        let head = Head {
            title: "Search",
            query: text,
            is_overview: false,
        };
        let mut page = begin_page(self.alloc, repaired, head)?;
        add_search(
            self.alloc,
            &mut page,
            &self.replayed.gathered,
            repaired,
            text,
            from,
        )?;
        end_page(page, StatusCode::OK, response)
    }

    // How many decisions there are.
    fn show_state(&self, response: &mut Response) -> Result<(), NoMemory>
        requires { IsBlank response.old }
        ensures { OnOk result (IsResponse 200 (typed_fields (codes "text/plain; charset=utf-8"))
            (state_text self.now.replayed.now.repaired) response.new) }
    {
        let decided = totals_of(&self.replayed.repaired).decided;
        let text = format!(in self.alloc; "{decided}\n")?;
        say_text(text.into_bytes(), response)
    }

    fn say_nothing(&self, text: &str, response: &mut Response) -> Result<(), NoMemory>
        requires { IsBlank response.old }
        ensures { OnOk result (IsHtmlPage 404 response.new) }
    {
        let why = Why {
            head: "Not there",
            answer: "404",
            text,
            href: "/",
            link: "To the overview",
        };
        say_why(
            self.alloc,
            &self.replayed.repaired,
            StatusCode::NOT_FOUND,
            why,
            response,
        )
    }

    // Where a decision is told, how that visit stands.
    fn add_told(
        &self,
        page: &mut Vec<u8>,
        client: &Client,
        told: Option<u64>,
    ) -> Result<(), NoMemory> {
        match told {
            Some(visit) => add_told(self.alloc, page, self.replayed, client, visit),
            None => Ok(()),
        }
    }
}
