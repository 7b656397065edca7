//! Responses, each with a status, a media type and a body, and their bytes.
ghost use Rattle.std.specs.Prelude.{◌≡◌, ◌≤◌, ◌++◌, false, length};
ghost use Rattle.thes_base.specs.Pipe.{failed_of};
ghost use Rattle.thes_http.specs.Responses.{status_code, status_line, media_type, problem_text, problem_status, allow_line, allow_text, body_text, head_text, ResponseWriteOutcome, reply_response, page_response, problem_response, form_response, fault_response, command_response, plan_response, plan_status, report_status, query_response, import_response, export_response};

use crate::head_text::HeadText;
use arrayvec::ArrayVec;
use http::StatusCode;
use std::io::Write;
use thes_base::fault::{Fault, FormFault};
use thes_base::pipe::{Budget, Pipe, Stop};
use thes_base::request::Answer;
use thes_http_request::endpoint::Endpoint;
use thes_http_request::problem::Problem;
use thes_requests::answer::{Reply, reply_line};
use thes_requests::handler::QueryAnswer;
use thes_requests::page::Page;
use thes_requests::plan_reply::{PlanReply, Report, plan_fault_line, plan_refusal_line};

/// The status of a response: one of nine codes of HTTP.
#[derive(Clone, Copy, Debug, PartialEq, Eq)]
pub enum Status {
    Fine,
    BadRequest,
    NotFound,
    MethodNotAllowed,
    Conflict,
    LengthRequired,
    PayloadTooLarge,
    NotImplemented,
    ServiceUnavailable,
}

impl Status {
    /// Returns the status code (RFC 9110, section 15).
    pub fn code(self) -> StatusCode
        ensures { result ≡ status_code self }
    {
        match self {
            Status::Fine => StatusCode::OK,
            Status::BadRequest => StatusCode::BAD_REQUEST,
            Status::NotFound => StatusCode::NOT_FOUND,
            Status::MethodNotAllowed => StatusCode::METHOD_NOT_ALLOWED,
            Status::Conflict => StatusCode::CONFLICT,
            Status::LengthRequired => StatusCode::LENGTH_REQUIRED,
            Status::PayloadTooLarge => StatusCode::PAYLOAD_TOO_LARGE,
            Status::NotImplemented => StatusCode::NOT_IMPLEMENTED,
            Status::ServiceUnavailable => StatusCode::SERVICE_UNAVAILABLE,
        }
    }

    // Returns the status line, with its line end.
    fn line(self) -> &'static str
        ensures text { result.now ≡ status_line self }
        ensures short { length result.now ≤ 40 }
    {
        match self {
            Status::Fine => "HTTP/1.1 200 OK\r\n",
            Status::BadRequest => "HTTP/1.1 400 Bad Request\r\n",
            Status::NotFound => "HTTP/1.1 404 Not Found\r\n",
            Status::MethodNotAllowed => "HTTP/1.1 405 Method Not Allowed\r\n",
            Status::Conflict => "HTTP/1.1 409 Conflict\r\n",
            Status::LengthRequired => "HTTP/1.1 411 Length Required\r\n",
            Status::PayloadTooLarge => "HTTP/1.1 413 Payload Too Large\r\n",
            Status::NotImplemented => "HTTP/1.1 501 Not Implemented\r\n",
            Status::ServiceUnavailable => "HTTP/1.1 503 Service Unavailable\r\n",
        }
    }
}

/// The media type of a body, as in `Content-Type`.
#[derive(Clone, Copy, Debug, PartialEq, Eq)]
pub enum MediaType {
    Json,
    Csv,
    NTriples,
    Plain,
}

impl MediaType {
    // Returns the name of the media type, as in `Content-Type`.
    fn name(self) -> &'static str
        ensures text { result.now ≡ media_type self }
        ensures short { length result.now ≤ 30 }
    {
        match self {
            MediaType::Json => "application/json",
            MediaType::Csv => "text/csv; charset=utf-8",
            MediaType::NTriples => "application/n-triples",
            MediaType::Plain => "text/plain; charset=utf-8",
        }
    }
}

// Returns the body for a problem: `{"bad":"NAME"}` and a line feed.
fn problem_line(problem: Problem) -> &'static str
    ensures { result.now ≡ problem_text problem }
{
    match problem {
        Problem::BadHead => "{\"bad\":\"BadHead\"}\n",
        Problem::TransferCoding => "{\"bad\":\"TransferCoding\"}\n",
        Problem::NoSuchPath => "{\"bad\":\"NoSuchPath\"}\n",
        Problem::BadMethod(_) => "{\"bad\":\"BadMethod\"}\n",
        Problem::NoLength => "{\"bad\":\"NoLength\"}\n",
        Problem::TooLong => "{\"bad\":\"TooLong\"}\n",
        Problem::BadQuery => "{\"bad\":\"BadQuery\"}\n",
    }
}

// Returns the status for a problem, such as 405 for a method that the path doesn't allow.
fn problem_status(problem: Problem) -> Status
    ensures { result ≡ problem_status problem }
{
    match problem {
        Problem::BadHead | Problem::BadQuery => Status::BadRequest,
        Problem::TransferCoding => Status::NotImplemented,
        Problem::NoSuchPath => Status::NotFound,
        Problem::BadMethod(_) => Status::MethodNotAllowed,
        Problem::NoLength => Status::LengthRequired,
        Problem::TooLong => Status::PayloadTooLarge,
    }
}

// Returns the `Allow` line of an endpoint.
fn allow_line(endpoint: Endpoint) -> &'static str
    ensures text { result.now ≡ allow_line endpoint }
    ensures short { length result.now ≤ 20 }
{
    match endpoint {
        Endpoint::Requests | Endpoint::Plans | Endpoint::Import => "Allow: POST\r\n",
        _ => "Allow: GET\r\n",
    }
}

// Returns the status for a report: 200, or 503 if the last answer is a fault.
fn report_status(report: &Report) -> Status
    ensures { result ≡ report_status report.now }
{
    match report.end.fault {
        None => Status::Fine,
        Some(_) => Status::ServiceUnavailable,
    }
}

// Returns the status for the reply to a plan: 200 for answers, 503 if they end in a fault, 409 for
// a refusal, or 400 for a text that isn't a plan.
fn plan_status(reply: &PlanReply) -> Status
    ensures { result ≡ plan_status reply.now }
{
    match reply {
        PlanReply::Done(_) => Status::Fine,
        PlanReply::Reported(report) => report_status(report),
        PlanReply::Refused(..) => Status::Conflict,
        PlanReply::Bad(_) => Status::BadRequest,
    }
}

/// The content of a response: a problem, a reply, the reply to a plan, or a page.
#[derive(Drop)]
pub enum Body {
    Problem(Problem),
    Reply(Reply),
    Plan(PlanReply),
    Page(Page),
}

impl Body {
    // Returns the `Allow` line for `BadMethod` (RFC 9110, section 15.5.6), and else an empty text.
    fn allow(&self) -> &'static str
        ensures text { result.now ≡ allow_text self.now }
        ensures short { length result.now ≤ 20 }
    {
        match self {
            Body::Problem(Problem::BadMethod(endpoint)) => allow_line(*endpoint),
            _ => "",
        }
    }
}

/// A response: a status, a media type and a body.
#[derive(Drop)]
pub struct Response {
    pub status: Status,
    pub media: MediaType,
    pub body: Body,
}

impl Response {
    /// Returns the response to a request with a problem.
    pub fn problem(problem: Problem) -> Response
        ensures { result ≡ problem_response problem }
    {
        Response {
            status: problem_status(problem),
            media: MediaType::Json,
            body: Body::Problem(problem),
        }
    }

    // Returns a response whose body is a line of JSON.
    fn reply_response(status: Status, reply: Reply) -> Response
        ensures { result ≡ reply_response status reply }
    {
        Response {
            status,
            media: MediaType::Json,
            body: Body::Reply(reply),
        }
    }

    /// Returns the response to a form fault: 400.
    pub fn form(fault: FormFault) -> Response
        ensures { result ≡ form_response fault }
    {
        Response::reply_response(Status::BadRequest, Reply::Bad(fault))
    }

    /// Returns the response to a fault: 503.
    pub fn fault(fault: Fault) -> Response
        ensures { result ≡ fault_response fault }
    {
        Response::reply_response(Status::ServiceUnavailable, Reply::Fault(fault))
    }

    /// Returns the response to a command: 200 for an answer, 409 for a refusal, or 503 for a fault.
    pub fn for_command(answer: Result<Answer, Fault>) -> Response
        ensures { result ≡ command_response answer }
    {
        match answer {
            Ok(Answer::No(refusal)) => Response::reply_response(
                Status::Conflict,
                Reply::Answer(Answer::No(refusal)),
            ),
            Ok(answer) => Response::reply_response(Status::Fine, Reply::Answer(answer)),
            Err(fault) => Response::fault(fault),
        }
    }

    /// Returns the response to a plan: 200 for answers, 409 for a refusal, 400 for a text that
    /// isn't a plan, or 503 for a fault.
    pub fn for_plan(reply: Result<PlanReply, Fault>) -> Response
        ensures { result ≡ plan_response reply }
    {
        match reply {
            Ok(reply) => Response {
                status: plan_status(&reply),
                media: MediaType::Json,
                body: Body::Plan(reply),
            },
            Err(fault) => Response::fault(fault),
        }
    }

    // Returns a response with a page of this media type: 200.
    fn page(media: MediaType, page: Page) -> Response
        ensures { result ≡ page_response media page }
    {
        Response {
            status: Status::Fine,
            media,
            body: Body::Page(page),
        }
    }

    /// Returns the response to a query for a view or a display: 200 with a page of this media type,
    /// 404 with the refusal, or 503 for a fault.
    pub fn for_query(media: MediaType, answer: Result<QueryAnswer, Fault>) -> Response
        ensures { result ≡ query_response media answer }
    {
        match answer {
            Ok(QueryAnswer::Page(page)) => Response::page(media, page),
            Ok(QueryAnswer::No(refusal)) => Response::reply_response(
                Status::NotFound,
                Reply::Answer(Answer::No(refusal)),
            ),
            Err(fault) => Response::fault(fault),
        }
    }

    /// Returns the response to an import: 200 with the outcomes as CSV, 400 for a malformed file,
    /// or 503 for a fault.
    pub fn for_import(imported: Result<Option<Page>, Fault>) -> Response
        ensures { result ≡ import_response imported }
    {
        match imported {
            Ok(Some(page)) => Response::page(MediaType::Csv, page),
            Ok(None) => Response::form(FormFault::BadShape),
            Err(fault) => Response::fault(fault),
        }
    }

    /// Returns the response to an export: 200 with N-Triples, or 503 for a fault.
    pub fn for_export(exported: Result<Page, Fault>) -> Response
        ensures { result ≡ export_response exported }
    {
        match exported {
            Ok(page) => Response::page(MediaType::NTriples, page),
            Err(fault) => Response::fault(fault),
        }
    }

    // Returns the head for a body of `count` bytes, with the empty line at its end.
    #[tactic(auto, unfolding(crate::specs::Responses::head_text))]
    fn head(&self, count: u64) -> HeadText
        requires { count ≡ length (body_text self.now.body) }
        ensures { result ≡ head_text self.now }
    {
        let mut head = HeadText::new();
        head.push(self.status.line());
        head.push("Content-Type: ");
        head.push(self.media.name());
        head.push("\r\nContent-Length: ");
        head.push_number(count);
        head.push("\r\nConnection: close\r\n");
        head.push(self.body.allow());
        head.push("\r\n");
        head
    }

    // Writes the head and the body, which is given in two parts, with one call to the writer if all
    // fit into 512 bytes.
    fn write_with<W: Write>(
        &self,
        writer: &mut Pipe<W>,
        budget: &mut Budget,
        body: &[u8],
        rest: &[u8],
    ) -> Result<(), Stop>
        requires fresh { failed_of writer.old ≡ false }
        requires body { body.now ++ rest.now ≡ body_text self.now.body }
        ensures { ResponseWriteOutcome W.contents self.now writer.old writer.new
            budget.old budget.new result }
    {
        let head = self.head(body.len() as u64 + rest.len() as u64);
        let mut whole = ArrayVec::<u8, 512>::new();
        if whole.try_extend_from_slice(head.as_bytes()).is_ok()
            && whole.try_extend_from_slice(body).is_ok()
            && whole.try_extend_from_slice(rest).is_ok()
        {
            return writer.write_all(budget, whole.as_slice());
        }
        writer.write_all(budget, head.as_bytes())?;
        writer.write_all(budget, body)?;
        writer.write_all(budget, rest)
    }

    /// Writes the response; allocates nothing.
    pub fn write<W: Write>(&self, writer: &mut Pipe<W>, budget: &mut Budget) -> Result<(), Stop>
        requires { failed_of writer.old ≡ false }
        ensures { ResponseWriteOutcome W.contents self.now writer.old writer.new
            budget.old budget.new result }
    {
        match &self.body {
            Body::Problem(problem) => {
                self.write_with(writer, budget, problem_line(*problem).as_bytes(), b"")
            }
            Body::Reply(reply) => {
                self.write_with(writer, budget, reply_line(*reply).as_bytes(), b"")
            }
            Body::Plan(PlanReply::Done(line)) => {
                self.write_with(writer, budget, line.as_bytes(), b"")
            }
            Body::Plan(PlanReply::Reported(report)) => self.write_with(
                writer,
                budget,
                report.changes.as_bytes(),
                report.answers.as_bytes(),
            ),
            Body::Plan(PlanReply::Refused(place, refusal)) => self.write_with(
                writer,
                budget,
                plan_refusal_line(*place, *refusal).as_bytes(),
                b"",
            ),
            Body::Plan(PlanReply::Bad(fault)) => {
                self.write_with(writer, budget, plan_fault_line(*fault).as_bytes(), b"")
            }
            Body::Page(page) => self.write_with(writer, budget, page.as_bytes(), b""),
        }
    }
}
