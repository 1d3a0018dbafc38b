//! The style sheet: light and dark, 400 pixels wide and more, and paper.
//!
//! Colours are variables: one blue ramp for committed, used and live words and for the map, grey
//! for reserved, green for loaders, amber for what is committed and free, red for limits and
//! refusals. A mark is a word too, and no colour alone.

/// The style sheet of every page.
pub(crate) const STYLE: &str =
    r#":root{--bg:#f4f5f7;--card:#fff;--ink:#1b2128;--soft:#5a6571;--line:#e1e5ea;--hair:#edf0f3;
--reserved:#c9d1da;--committed:#d3e2f2;--used:#88b3de;--live:#2f6fb3;--gone:#c8dccf;--stay:#3f8a5f;--limit:#c3292d;
--unload:#2f8797;--purge:#7a5ca8;--report:#7b8591;--free:#eceff2;--idle:#eaa93c;--lent:#bfd8f1;
--point:rgba(27,33,40,.15);--fine:#2c7a4b;--look:#95620a;--bad:#c3292d}
@media screen and (prefers-color-scheme:dark){:root{--bg:#0e1217;--card:#161b22;--ink:#e3e8ee;--soft:#97a3b0;--line:#2a323c;--hair:#20272f;
--reserved:#3c4652;--committed:#213a54;--used:#386a9c;--live:#6cb0ec;--gone:#2c4a39;--stay:#6cc393;--limit:#ff6b6b;
--unload:#5bb8c9;--purge:#b296e3;--report:#8b96a3;--free:#222931;--idle:#d0932f;--lent:#28476a;
--point:rgba(227,232,238,.2);--fine:#6cc393;--look:#e2b053;--bad:#ff7b7b}}
*{box-sizing:border-box}
body{margin:0;background:var(--bg);color:var(--ink);font:14px/1.5 system-ui,-apple-system,"Segoe UI",Roboto,"Helvetica Neue",Arial,"Liberation Sans",sans-serif;font-variant-numeric:tabular-nums}
header,main,footer{max-width:1200px;margin:0 auto;padding:0 20px}
header{display:flex;flex-wrap:wrap;align-items:baseline;gap:4px 16px;padding-top:20px}
h1{font-size:20px;margin:0}
header p{margin:0;flex:1;color:var(--soft);font-size:13px}
.fine{--state:var(--fine)}.look{--state:var(--look)}.bad{--state:var(--bad)}
header .verdict{flex:1 0 100%;order:3;color:var(--state);font-weight:600;font-size:15px}
section{background:var(--card);border:1px solid var(--line);border-radius:8px;padding:16px 20px;margin:16px 0}
h2{font-size:16px;margin:0 0 8px}
h3{font-size:13px;font-weight:600;margin:16px 0 6px}
p{margin:0 0 8px}
.soft,small,footer{color:var(--soft)}
small{font-size:12px}
svg{display:block;width:100%;overflow:visible}
path,line{vector-effect:non-scaling-stroke}
.tiles{display:grid;grid-template-columns:repeat(auto-fit,minmax(280px,1fr));gap:12px}
.tile{border:1px solid var(--line);border-left:3px solid var(--state);border-radius:6px;padding:10px 14px}
.tile h3{margin:0;display:flex;justify-content:space-between;color:var(--soft)}
.tile h3 span{color:var(--state)}
.tile p{margin:8px 0 0;font-size:13px}
.tile .value{font-size:26px;line-height:1.2;font-weight:600;margin:2px 0 8px}
.tile .value small{font-size:13px;font-weight:400}
.tile dl{display:grid;grid-template-columns:auto 1fr;gap:0 12px;margin:8px 0 0;font-size:13px}
.tile dd{margin:0}
.meter{height:6px;background:var(--hair);border-radius:3px}
.meter .now{fill:var(--used)}
.meter .peak{stroke:var(--ink);stroke-width:2}
.reserved{fill:var(--reserved)}.committed{fill:var(--committed)}.used{fill:var(--used)}.live{fill:var(--live)}.gone{fill:var(--gone)}.stay{fill:var(--stay)}
.plot .committed{stroke:var(--used)}.plot .gone{stroke:var(--stay)}
.unload{fill:var(--unload)}.purge{fill:var(--purge)}.refused{fill:var(--limit)}.report{fill:var(--report)}.free{fill:var(--report)}
.p-free{fill:var(--free)}.p-idle{fill:var(--idle)}.p-lent{fill:var(--lent)}.p-part{fill:var(--used)}.p-whole{fill:var(--live)}
[class^="k-"]::before{content:"";display:inline-block;width:10px;height:10px;border-radius:2px;margin-right:6px;background:var(--k)}
.k-reserved{--k:var(--reserved)}.k-committed{--k:var(--committed)}.k-used{--k:var(--used)}.k-live{--k:var(--live)}.k-free,.k-waste{--k:transparent}.k-limit{--k:linear-gradient(90deg,var(--limit) 70%,transparent 0) 0 50%/5px 2px repeat-x}.k-mark{--k:linear-gradient(90deg,var(--ink) 50%,transparent 0) 0 50%/4px 1px repeat-x}.k-gone{--k:var(--gone)}.k-stay{--k:var(--stay)}
.k-p-free{--k:var(--free)}.k-p-idle{--k:var(--idle)}.k-p-lent{--k:var(--lent)}.k-p-part{--k:var(--used)}.k-p-whole{--k:var(--live)}
.key span,.panel h3 span{display:inline-block;margin-right:12px;font-weight:400}
.plots{position:relative;padding-left:100px}
.panel h3{margin:14px 0 6px}.panel.roomy h3{margin-bottom:18px}
.grid line{stroke:var(--ink);opacity:.1}
.grid text,.axis text{font-size:11px;fill:var(--soft);text-anchor:end}
.limit{fill:none;stroke:var(--limit);stroke-dasharray:5 3}
.bound,.top{font-size:11px;paint-order:stroke;stroke:var(--card);stroke-width:3px;text-anchor:start}
.bound{fill:var(--limit)}.top{fill:var(--ink);font-weight:600}.top.end{text-anchor:end}
.mark{stroke:var(--ink);stroke-dasharray:2 3;opacity:.6}
.lane{position:relative;border-bottom:1px solid var(--hair);margin-top:4px}
.panel+.lane{margin-top:12px}
.lane path{stroke-width:1}.lane .unload{stroke:var(--unload)}.lane .purge{stroke:var(--purge)}.lane .refused{stroke:var(--limit)}.lane .report{stroke:var(--report)}
.lane h4{position:absolute;left:-100px;width:92px;margin:0;font-size:11px;line-height:16px;font-weight:400;color:var(--soft);display:flex;justify-content:space-between}
.axis .q0{text-anchor:start}.axis .q1,.axis .q2,.axis .q3{text-anchor:middle}
.cols{position:absolute;inset:0 0 0 100px;display:flex;margin:0;padding:0;list-style:none}
.cols li{flex:1 1 0}
.cols li:hover{background:var(--point);box-shadow:-1px 0 var(--ink),1px 0 var(--ink)}
.cols span{position:fixed;left:0;right:0;bottom:0;padding:8px 20px;background:var(--ink);color:var(--bg);font-size:13px;opacity:0;pointer-events:none}
.cols li:hover span{opacity:1}
.wide{overflow-x:auto;margin-top:16px}
table{border-collapse:separate;border-spacing:0;width:100%;font-size:13px}
caption{text-align:left;font-weight:600;padding-bottom:4px}
th,td{padding:2px 8px;text-align:right;white-space:nowrap;border-bottom:1px solid var(--hair)}
thead th[colspan]{text-align:center}
thead th{color:var(--soft);font-weight:400;border-bottom:1px solid var(--line)}
tbody th{font-weight:400}
.left,.usage tbody th,.usage thead tr:last-child th:first-child,.settings th{text-align:left}
tbody tr:hover{background:var(--hair)}
.name{white-space:normal;overflow-wrap:anywhere;min-width:110px}
.z{color:var(--soft)}
.apart{padding-left:40px}
td b,th b{font-weight:400}
td i,th i{display:none;font-style:normal}
.bar{width:120px;height:8px}.levels .bar{width:160px}
.life{width:80px;height:8px;background:var(--hair)}.life .stay{fill:var(--stay);opacity:.6}
.levels{width:auto}
.grew{color:var(--look)}.new,.same,.shrank{color:var(--soft)}
details{margin-top:16px}
summary{cursor:pointer;font-weight:600}
.cells{list-style:none;display:flex;flex-wrap:wrap;gap:4px 20px;margin:0;padding:0}
.map{display:grid;grid-template-columns:repeat(auto-fill,minmax(190px,1fr));gap:12px 20px}
figure{margin:0}
.map path{stroke:var(--card);stroke-width:1}
figcaption{font-size:11px;color:var(--soft)}
.pair{display:grid;grid-template-columns:repeat(auto-fit,minmax(340px,1fr));gap:0 32px}
code{font:12px ui-monospace,SFMono-Regular,Menlo,Consolas,"Liberation Mono",monospace}
.next{margin:0;padding-left:18px}.next li{margin-bottom:6px}
.command{margin:16px 0 0;overflow-x:auto;white-space:nowrap}.pair h3{margin-top:0}.pair>*{min-width:0}
footer{font-size:12px;padding-bottom:24px}
#words{position:absolute;opacity:0}
#words:focus-visible~header label{outline:2px solid var(--used)}
header label{border:1px solid var(--line);border-radius:6px;padding:2px 10px;cursor:pointer;color:var(--soft)}
#words:checked~header label{background:var(--ink);color:var(--bg)}
#words:checked~main td b,#words:checked~main th b{display:none}
#words:checked~main td i,#words:checked~main th i{display:inline}
@media (max-width:1220px){th,td{padding:2px 5px}.levels .bar{width:120px}.life{width:56px}}
@media (max-width:1100px){table{font-size:12px}th,td{padding:2px 3px}.bar,.levels .bar{width:76px}.life{width:40px}}
@media (max-width:640px){header,main,footer{padding:0 10px}header{padding-top:12px}header p{flex:1 0 100%;order:2}section{padding:12px}
.tiles{grid-template-columns:repeat(auto-fit,minmax(160px,1fr));gap:8px}.tile{padding:8px 10px}.tile .value{font-size:21px}.tile .value small{display:block}
.plots{padding-left:76px}.cols{left:76px}.lane h4{left:-76px;width:70px;font-size:9px}.grid text,.axis text{font-size:10px}.axis .q1,.axis .q3{display:none}
tbody th:first-child{position:sticky;left:0;background:var(--card)}.pair{grid-template-columns:1fr}thead th[colspan]{text-align:left}.pair h3{margin-top:16px}.bar,.levels .bar{width:76px}.map{grid-template-columns:repeat(auto-fill,minmax(150px,1fr));gap:10px 14px}}
@media print{body{background:none}section{border:none;padding:0;break-inside:auto}.tile,figure,.panel,tr{break-inside:avoid}.cols,header label{display:none}.wide{overflow:visible}table{font-size:10px}th,td{padding:1px 4px}.bar,.levels .bar{width:64px}.life{width:40px}.apart{padding-left:8px}*{print-color-adjust:exact}}
"#;
