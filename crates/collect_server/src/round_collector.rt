//! The collector, served in rounds.
ghost use Rattle.collect_http.specs.Answering.{Answers, RoundSettles};

use bytes::Bytes;
use collect_http::Collector;
use http::Request;
use http_rounds::RoundService;
use http_server::{Response, Service};
use std::alloc::AllocError;
use upload_files::GrowingFile;
use upload_folder::Folder;

/// A collector, whose answers and whose settle are those of a round.
#[derive(Drop)]
pub(crate) struct RoundCollector<F, D> {
    pub(crate) collector: Collector<F, D>,
}

impl<F: GrowingFile + Drop, D: Folder<F>> Service for RoundCollector<F, D> {
    ghost answers = { λ old request response new.
        Answers F.seen F.durable F.lost D.lies D.known old.collector request response new.collector };

    fn call(
        &mut self,
        request: &Request<Bytes>,
        response: &mut Response,
    ) -> Result<(), AllocError> {
        self.collector.call(request, response)
    }
}

impl<F: GrowingFile + Drop, D: Folder<F>> RoundService for RoundCollector<F, D> {
    ghost settles = { λ old stands new.
        RoundSettles F.seen F.durable F.lost D.lies D.known old.collector stands new.collector };

    fn settle(&mut self, is_crowded: bool) -> bool {
        self.collector.settle(is_crowded)
    }

    fn has_read_enough(&self) -> bool {
        self.collector.has_read_enough()
    }
}
