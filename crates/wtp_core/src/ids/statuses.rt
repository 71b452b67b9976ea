//! The names of the registered status codes (IANA's "HTTP Status Code Registry"; RFC 9110,
//! section 15, unless another source is named).

use super::StatusCode;

// 306 and 418 are registered as unused, so they have no name.
impl StatusCode {
    /// 100 (Continue).
    pub const CONTINUE: StatusCode = StatusCode { code: 100 };

    /// 101 (Switching Protocols).
    pub const SWITCHING_PROTOCOLS: StatusCode = StatusCode { code: 101 };

    /// 102 (Processing; RFC 2518, section 10.1).
    pub const PROCESSING: StatusCode = StatusCode { code: 102 };

    /// 103 (Early Hints; RFC 8297).
    pub const EARLY_HINTS: StatusCode = StatusCode { code: 103 };

    /// 200 (OK).
    pub const OK: StatusCode = StatusCode { code: 200 };

    /// 201 (Created).
    pub const CREATED: StatusCode = StatusCode { code: 201 };

    /// 202 (Accepted).
    pub const ACCEPTED: StatusCode = StatusCode { code: 202 };

    /// 203 (Non-Authoritative Information).
    pub const NON_AUTHORITATIVE_INFORMATION: StatusCode = StatusCode { code: 203 };

    /// 204 (No Content).
    pub const NO_CONTENT: StatusCode = StatusCode { code: 204 };

    /// 205 (Reset Content).
    pub const RESET_CONTENT: StatusCode = StatusCode { code: 205 };

    /// 206 (Partial Content).
    pub const PARTIAL_CONTENT: StatusCode = StatusCode { code: 206 };

    /// 207 (Multi-Status; RFC 4918, section 11.1).
    pub const MULTI_STATUS: StatusCode = StatusCode { code: 207 };

    /// 208 (Already Reported; RFC 5842, section 7.1).
    pub const ALREADY_REPORTED: StatusCode = StatusCode { code: 208 };

    /// 226 (IM Used; RFC 3229, section 10.4.1).
    pub const IM_USED: StatusCode = StatusCode { code: 226 };

    /// 300 (Multiple Choices).
    pub const MULTIPLE_CHOICES: StatusCode = StatusCode { code: 300 };

    /// 301 (Moved Permanently).
    pub const MOVED_PERMANENTLY: StatusCode = StatusCode { code: 301 };

    /// 302 (Found).
    pub const FOUND: StatusCode = StatusCode { code: 302 };

    /// 303 (See Other).
    pub const SEE_OTHER: StatusCode = StatusCode { code: 303 };

    /// 304 (Not Modified).
    pub const NOT_MODIFIED: StatusCode = StatusCode { code: 304 };

    /// 305 (Use Proxy).
    pub const USE_PROXY: StatusCode = StatusCode { code: 305 };

    /// 307 (Temporary Redirect).
    pub const TEMPORARY_REDIRECT: StatusCode = StatusCode { code: 307 };

    /// 308 (Permanent Redirect).
    pub const PERMANENT_REDIRECT: StatusCode = StatusCode { code: 308 };

    /// 400 (Bad Request).
    pub const BAD_REQUEST: StatusCode = StatusCode { code: 400 };

    /// 401 (Unauthorized).
    pub const UNAUTHORIZED: StatusCode = StatusCode { code: 401 };

    /// 402 (Payment Required).
    pub const PAYMENT_REQUIRED: StatusCode = StatusCode { code: 402 };

    /// 403 (Forbidden).
    pub const FORBIDDEN: StatusCode = StatusCode { code: 403 };

    /// 404 (Not Found).
    pub const NOT_FOUND: StatusCode = StatusCode { code: 404 };

    /// 405 (Method Not Allowed).
    pub const METHOD_NOT_ALLOWED: StatusCode = StatusCode { code: 405 };

    /// 406 (Not Acceptable).
    pub const NOT_ACCEPTABLE: StatusCode = StatusCode { code: 406 };

    /// 407 (Proxy Authentication Required).
    pub const PROXY_AUTHENTICATION_REQUIRED: StatusCode = StatusCode { code: 407 };

    /// 408 (Request Timeout).
    pub const REQUEST_TIMEOUT: StatusCode = StatusCode { code: 408 };

    /// 409 (Conflict).
    pub const CONFLICT: StatusCode = StatusCode { code: 409 };

    /// 410 (Gone).
    pub const GONE: StatusCode = StatusCode { code: 410 };

    /// 411 (Length Required).
    pub const LENGTH_REQUIRED: StatusCode = StatusCode { code: 411 };

    /// 412 (Precondition Failed).
    pub const PRECONDITION_FAILED: StatusCode = StatusCode { code: 412 };

    /// 413 (Content Too Large).
    pub const CONTENT_TOO_LARGE: StatusCode = StatusCode { code: 413 };

    /// 414 (URI Too Long).
    pub const URI_TOO_LONG: StatusCode = StatusCode { code: 414 };

    /// 415 (Unsupported Media Type).
    pub const UNSUPPORTED_MEDIA_TYPE: StatusCode = StatusCode { code: 415 };

    /// 416 (Range Not Satisfiable).
    pub const RANGE_NOT_SATISFIABLE: StatusCode = StatusCode { code: 416 };

    /// 417 (Expectation Failed).
    pub const EXPECTATION_FAILED: StatusCode = StatusCode { code: 417 };

    /// 421 (Misdirected Request).
    pub const MISDIRECTED_REQUEST: StatusCode = StatusCode { code: 421 };

    /// 422 (Unprocessable Content).
    pub const UNPROCESSABLE_CONTENT: StatusCode = StatusCode { code: 422 };

    /// 423 (Locked; RFC 4918, section 11.3).
    pub const LOCKED: StatusCode = StatusCode { code: 423 };

    /// 424 (Failed Dependency; RFC 4918, section 11.4).
    pub const FAILED_DEPENDENCY: StatusCode = StatusCode { code: 424 };

    /// 425 (Too Early; RFC 8470, section 5.2).
    pub const TOO_EARLY: StatusCode = StatusCode { code: 425 };

    /// 426 (Upgrade Required).
    pub const UPGRADE_REQUIRED: StatusCode = StatusCode { code: 426 };

    /// 428 (Precondition Required; RFC 6585, section 3).
    pub const PRECONDITION_REQUIRED: StatusCode = StatusCode { code: 428 };

    /// 429 (Too Many Requests; RFC 6585, section 4).
    pub const TOO_MANY_REQUESTS: StatusCode = StatusCode { code: 429 };

    /// 431 (Request Header Fields Too Large; RFC 6585, section 5).
    pub const REQUEST_HEADER_FIELDS_TOO_LARGE: StatusCode = StatusCode { code: 431 };

    /// 451 (Unavailable For Legal Reasons; RFC 7725, section 3).
    pub const UNAVAILABLE_FOR_LEGAL_REASONS: StatusCode = StatusCode { code: 451 };

    /// 500 (Internal Server Error).
    pub const INTERNAL_SERVER_ERROR: StatusCode = StatusCode { code: 500 };

    /// 501 (Not Implemented).
    pub const NOT_IMPLEMENTED: StatusCode = StatusCode { code: 501 };

    /// 502 (Bad Gateway).
    pub const BAD_GATEWAY: StatusCode = StatusCode { code: 502 };

    /// 503 (Service Unavailable).
    pub const SERVICE_UNAVAILABLE: StatusCode = StatusCode { code: 503 };

    /// 504 (Gateway Timeout).
    pub const GATEWAY_TIMEOUT: StatusCode = StatusCode { code: 504 };

    /// 505 (HTTP Version Not Supported).
    pub const HTTP_VERSION_NOT_SUPPORTED: StatusCode = StatusCode { code: 505 };

    /// 506 (Variant Also Negotiates; RFC 2295, section 8.1).
    pub const VARIANT_ALSO_NEGOTIATES: StatusCode = StatusCode { code: 506 };

    /// 507 (Insufficient Storage; RFC 4918, section 11.5).
    pub const INSUFFICIENT_STORAGE: StatusCode = StatusCode { code: 507 };

    /// 508 (Loop Detected; RFC 5842, section 7.2).
    pub const LOOP_DETECTED: StatusCode = StatusCode { code: 508 };

    /// 510 (Not Extended; RFC 2774, section 7).
    pub const NOT_EXTENDED: StatusCode = StatusCode { code: 510 };

    /// 511 (Network Authentication Required; RFC 6585, section 6).
    pub const NETWORK_AUTHENTICATION_REQUIRED: StatusCode = StatusCode { code: 511 };
}

const _: () = prove!(StatusCode::CONTINUE.code == 100);

const _: () = prove!(StatusCode::SWITCHING_PROTOCOLS.code == 101);

const _: () = prove!(StatusCode::PROCESSING.code == 102);

const _: () = prove!(StatusCode::EARLY_HINTS.code == 103);

const _: () = prove!(StatusCode::OK.code == 200);

const _: () = prove!(StatusCode::CREATED.code == 201);

const _: () = prove!(StatusCode::ACCEPTED.code == 202);

const _: () = prove!(StatusCode::NON_AUTHORITATIVE_INFORMATION.code == 203);

const _: () = prove!(StatusCode::NO_CONTENT.code == 204);

const _: () = prove!(StatusCode::RESET_CONTENT.code == 205);

const _: () = prove!(StatusCode::PARTIAL_CONTENT.code == 206);

const _: () = prove!(StatusCode::MULTI_STATUS.code == 207);

const _: () = prove!(StatusCode::ALREADY_REPORTED.code == 208);

const _: () = prove!(StatusCode::IM_USED.code == 226);

const _: () = prove!(StatusCode::MULTIPLE_CHOICES.code == 300);

const _: () = prove!(StatusCode::MOVED_PERMANENTLY.code == 301);

const _: () = prove!(StatusCode::FOUND.code == 302);

const _: () = prove!(StatusCode::SEE_OTHER.code == 303);

const _: () = prove!(StatusCode::NOT_MODIFIED.code == 304);

const _: () = prove!(StatusCode::USE_PROXY.code == 305);

const _: () = prove!(StatusCode::TEMPORARY_REDIRECT.code == 307);

const _: () = prove!(StatusCode::PERMANENT_REDIRECT.code == 308);

const _: () = prove!(StatusCode::BAD_REQUEST.code == 400);

const _: () = prove!(StatusCode::UNAUTHORIZED.code == 401);

const _: () = prove!(StatusCode::PAYMENT_REQUIRED.code == 402);

const _: () = prove!(StatusCode::FORBIDDEN.code == 403);

const _: () = prove!(StatusCode::NOT_FOUND.code == 404);

const _: () = prove!(StatusCode::METHOD_NOT_ALLOWED.code == 405);

const _: () = prove!(StatusCode::NOT_ACCEPTABLE.code == 406);

const _: () = prove!(StatusCode::PROXY_AUTHENTICATION_REQUIRED.code == 407);

const _: () = prove!(StatusCode::REQUEST_TIMEOUT.code == 408);

const _: () = prove!(StatusCode::CONFLICT.code == 409);

const _: () = prove!(StatusCode::GONE.code == 410);

const _: () = prove!(StatusCode::LENGTH_REQUIRED.code == 411);

const _: () = prove!(StatusCode::PRECONDITION_FAILED.code == 412);

const _: () = prove!(StatusCode::CONTENT_TOO_LARGE.code == 413);

const _: () = prove!(StatusCode::URI_TOO_LONG.code == 414);

const _: () = prove!(StatusCode::UNSUPPORTED_MEDIA_TYPE.code == 415);

const _: () = prove!(StatusCode::RANGE_NOT_SATISFIABLE.code == 416);

const _: () = prove!(StatusCode::EXPECTATION_FAILED.code == 417);

const _: () = prove!(StatusCode::MISDIRECTED_REQUEST.code == 421);

const _: () = prove!(StatusCode::UNPROCESSABLE_CONTENT.code == 422);

const _: () = prove!(StatusCode::LOCKED.code == 423);

const _: () = prove!(StatusCode::FAILED_DEPENDENCY.code == 424);

const _: () = prove!(StatusCode::TOO_EARLY.code == 425);

const _: () = prove!(StatusCode::UPGRADE_REQUIRED.code == 426);

const _: () = prove!(StatusCode::PRECONDITION_REQUIRED.code == 428);

const _: () = prove!(StatusCode::TOO_MANY_REQUESTS.code == 429);

const _: () = prove!(StatusCode::REQUEST_HEADER_FIELDS_TOO_LARGE.code == 431);

const _: () = prove!(StatusCode::UNAVAILABLE_FOR_LEGAL_REASONS.code == 451);

const _: () = prove!(StatusCode::INTERNAL_SERVER_ERROR.code == 500);

const _: () = prove!(StatusCode::NOT_IMPLEMENTED.code == 501);

const _: () = prove!(StatusCode::BAD_GATEWAY.code == 502);

const _: () = prove!(StatusCode::SERVICE_UNAVAILABLE.code == 503);

const _: () = prove!(StatusCode::GATEWAY_TIMEOUT.code == 504);

const _: () = prove!(StatusCode::HTTP_VERSION_NOT_SUPPORTED.code == 505);

const _: () = prove!(StatusCode::VARIANT_ALSO_NEGOTIATES.code == 506);

const _: () = prove!(StatusCode::INSUFFICIENT_STORAGE.code == 507);

const _: () = prove!(StatusCode::LOOP_DETECTED.code == 508);

const _: () = prove!(StatusCode::NOT_EXTENDED.code == 510);

const _: () = prove!(StatusCode::NETWORK_AUTHENTICATION_REQUIRED.code == 511);
