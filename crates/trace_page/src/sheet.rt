// What stands on each page, whatever the trace.
ghost use Rattle.std.specs.Prelude.{◌≡◌};
ghost use Rattle.trace_page.specs.Sheet as sheet;

const PAGE_HEAD: &str = "<!doctype html>
<html lang=\"en\">
<meta charset=\"utf-8\">
<meta name=\"viewport\" content=\"width=device-width\">
<title>A trace of the line</title>
<style>
:root{--ink:#1d2430;--soft:#7b8794;--line:#d5dbe3;--bg:#fff;--band:#f5f7fa;
--ask:#1a5fb4;--say:#26734d;--ack:#9aa5b1;--bad:#c01c28;--again:#c45500}
@media (prefers-color-scheme:dark){:root{--ink:#e6e9ee;--soft:#93a1b0;--line:#3a4350;
--bg:#14181e;--band:#1b212a;--ask:#7fb2f0;--say:#7cc9a0;--ack:#66717e;--bad:#ff7b72;
--again:#f0a35e}}
*{box-sizing:border-box}
body{margin:0 auto;max-width:72rem;padding:1.2rem;background:var(--bg);color:var(--ink);
font:14px/1.35 system-ui,sans-serif}
h1{font-size:1.25rem;margin:0}
p{margin:.25rem 0 .8rem;color:var(--soft)}
nav{position:sticky;top:0;background:var(--bg);padding:.45rem 0;z-index:1;
border-bottom:1px solid var(--line)}
nav label{display:inline-block;margin-right:1.2rem;cursor:pointer}
input{position:absolute;opacity:0}
label::before{content:'';display:inline-block;width:.8em;height:.8em;margin-right:.45em;
border:1.5px solid var(--soft);border-radius:2px;vertical-align:-.05em}
#acks:checked~nav [for=acks]::before,#harm:checked~nav [for=harm]::before,
#bytes:checked~nav [for=bytes]::before{background:var(--ask);border-color:var(--ask)}
input:focus-visible~nav{outline:2px solid var(--ask)}
#acks:checked~ol .ack,#harm:checked~ol .ok:not(.again){display:none}
code{display:none;font:11px/1.3 ui-monospace,monospace;color:var(--soft);grid-column:2/-1;
overflow-wrap:anywhere;padding:0 .4rem .3rem}
#bytes:checked~ol code{display:block}
ol{list-style:none;margin:0;padding:0}
li{display:grid;grid-template-columns:3.2rem minmax(14rem,24rem) 1fr;column-gap:.8rem;
align-items:center;padding:.1rem 0;content-visibility:auto;
contain-intrinsic-size:auto 1.7rem}
li.band{background:var(--band)}
li.ends{font-weight:600;padding:.5rem 0 .2rem}
.ends b:first-of-type{float:left}.ends b:last-of-type{float:right}
i{font-style:normal;color:var(--soft);text-align:right;font-variant-numeric:tabular-nums}
li>div{border:solid var(--line);border-width:0 2px;height:1.5rem;position:relative}
u{position:absolute;top:50%;left:0;width:100%;border-top:2px solid var(--ask)}
.H u{border-color:var(--say);left:auto;right:0}
.ack u{border-top:1px solid var(--ack)}.ack.H u{border-top-color:var(--ack)}
.again u,.again.H u{border-color:var(--again)}
u::after{content:'';position:absolute;right:0;top:-5px;border:solid transparent;
border-width:4px 0 4px 8px;border-left-color:var(--ask)}
.H u::after{right:auto;left:0;border-width:4px 8px 4px 0;border-left-color:transparent;
border-right-color:var(--say)}
.ack u::after{border-left-color:var(--ack)}
.ack.H u::after{border-left-color:transparent;border-right-color:var(--ack)}
.again:not(.ack) u::after{border-left-color:var(--again)}
.again.H:not(.ack) u::after{border-left-color:transparent;border-right-color:var(--again)}
.gone u,.gone.H u{border-top:2px dashed var(--bad);width:55%}
.gone u::after,.gone.H u::after{content:'x';border:0;color:var(--bad);right:-5px;top:-2px;
font:700 15px/0 system-ui,sans-serif}
.gone.H u::after{right:auto;left:-5px}
.cut u,.cut.H u{width:75%}.hit u,.hit.H u{width:94%}
.late u,.late.H u{border-top:2px dotted var(--bad)}
div::before{position:absolute;top:calc(50% - 4px);left:0;width:26%;height:9px}
.noise div::before{content:'';background:repeating-linear-gradient(90deg,var(--bad) 0 2px,
transparent 2px 4px)}
.noise.H div::before{left:auto;right:0}
.open u{opacity:.35}
b{font-weight:600}.ack b{font-weight:400;color:var(--soft)}
em{font-style:normal;color:var(--bad);margin-left:.5rem;overflow-wrap:anywhere}
.again em.r{color:var(--again)}em.o{color:var(--soft)}
small{color:var(--soft);margin-left:.5rem}
@media(max-width:40rem){li{grid-template-columns:2.4rem 7rem 1fr}small{display:none}
.ends b{font-size:.7rem}}
@media print{nav{display:none}}
</style>
<h1>A trace of the line</h1>
";

const LIST_HEAD: &str = "<input type=\"checkbox\" id=\"acks\"><input type=\"checkbox\" id=\"harm\">
<input type=\"checkbox\" id=\"bytes\">
<nav><label for=\"acks\">hide acknowledgements</label>
<label for=\"harm\">only what went wrong</label>
<label for=\"bytes\">lines of the trace</label></nav>
<ol>
<li class=\"ends\"><i></i><span><b>Desktop</b><b>Handheld</b></span><span></span></li>
";

const PAGE_FOOT: &str = "</ol>
</html>
";

/// The head of the page, with its style sheet.
#[tactic(auto, unfolding(crate::specs::Sheet::page_head))]
pub(crate) fn page_head() -> &'static str
    ensures { result.now ≡ sheet.page_head }
{
    PAGE_HEAD
}

/// The three switches, and the head of the list.
#[tactic(auto, unfolding(crate::specs::Sheet::list_head))]
pub(crate) fn list_head() -> &'static str
    ensures { result.now ≡ sheet.list_head }
{
    LIST_HEAD
}

/// The end of the page.
#[tactic(auto, unfolding(crate::specs::Sheet::page_foot))]
pub(crate) fn page_foot() -> &'static str
    ensures { result.now ≡ sheet.page_foot }
{
    PAGE_FOOT
}
